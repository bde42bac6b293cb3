//! What is reported about claims.
ghost use Rattle.std.specs.Prelude.{◌≡◌, ◌&&◌, ◌++◌, [], List, ℕ, IfOk, OnOk, option_map};
ghost use Rattle.std.specs.List.{list_all};
ghost use Rattle.std.specs.Option.{option_to_list};
ghost use Rattle.watched.specs.Telling.{TellsAfter, sheet};
ghost use Rattle.census_readback.specs.Shapes.{AreReports};
ghost use Rattle.census_table.specs.Entries.{entries_of};
ghost use Rattle.census_compare.specs.Agreement.{IsVerdict};
ghost use Rattle.census_compare.specs.Claims.{Claim as ClaimRead, claim_read, claims_read};
ghost use Rattle.census_compare.specs.Columns.{is_empty};
ghost use Rattle.census_compare.specs.Index.{AreNoted, IsIndex, patterns_in};
ghost use Rattle.census_compare.specs.Patterns.{is_claimed};
ghost use Rattle.census_compare.specs.Reporting.{Reports};
ghost use Rattle.census_compare.specs.Tests.{claim_agrees};

use crate::claim::{Claim, claim_in};
use crate::index::Index;
use crate::lines::{claim_lines, unclaimed_line};
use crate::reading::Claims;
use census_rows::Rows;
use std::alloc::{AllocError, Global};
use std::io::Write;
use watched::{Block, Output, put};

// Whether all agree after this text, if `before` says so before it.
fn agree_after(before: bool, text: &[u8]) -> bool
    ensures { result ≡ (before && is_empty text.now) }
{
    before && text.is_empty()
}

// The lines about a claim, which is noted; none where there is no claim.
fn lines_of(alloc: Global, index: &mut Index, claim: Option<Claim>) -> Result<Vec<u8>, AllocError>
    requires { IsIndex index.old }
    ensures is { OnOk result (IsIndex index.new) }
    ensures patterns { OnOk result (patterns_in index.new ≡ patterns_in index.old) }
    ensures noted { OnOk result ((claims : List ClaimRead) → AreNoted claims index.old
        → AreNoted (claims ++ option_to_list (option_map claim_read claim)) index.new) }
    ensures agree { IfOk result (λ text. is_empty text.items
        ≡ list_all (claim_agrees (patterns_in index.old)) (option_to_list (option_map claim_read claim))) }
{
    let Some(claim) = claim else {
        return Ok(Vec::new(alloc));
    };
    let found = index.match_of(alloc, &claim)?;
    index.note(&claim);
    claim_lines(alloc, &claim, &found)
}

// Writes what does not agree, claim by claim, and notes the claims. Returns whether all agree, and nothing was written.
fn put_claims<W: Write>(
    alloc: Global,
    claims: &Claims,
    index: &mut Index,
    block: &mut Block,
    writer: &mut Output<W>,
) -> Result<bool, AllocError>
    requires is { IsIndex index.old }
    requires none { AreNoted [] index.old }
    ensures tells { IfOk result (λ agree. Reports agree (sheet block.old writer.old) (sheet block.new writer.new)) }
    ensures agree { IfOk result (λ agree. agree
        ≡ list_all (claim_agrees (patterns_in index.old)) (claims_read claims.now)) }
    ensures is_new { OnOk result (IsIndex index.new) }
    ensures patterns { OnOk result (patterns_in index.new ≡ patterns_in index.old) }
    ensures noted { OnOk result (AreNoted (claims_read claims.now) index.new) }
{
    let mut agree = true;
    let mut rows = claims.rows(alloc)?;
    while let Some(row) = rows.next(alloc)? {
        let claim = claim_in(alloc, claims.titles.as_slice(), row)?;
        let text = lines_of(alloc, index, claim)?;
        let bytes = text.as_slice();
        agree = agree_after(agree, bytes);
        put(bytes, block, writer);
    }
    Ok(agree)
}

// Writes a line for each pattern that no claim is about. Returns whether there is none, and nothing was written.
fn put_unclaimed<W: Write>(
    alloc: Global,
    index: &Index,
    block: &mut Block,
    writer: &mut Output<W>,
) -> Result<bool, AllocError>
    requires { IsIndex index.now }
    ensures tells { IfOk result (λ agree. Reports agree (sheet block.old writer.old) (sheet block.new writer.new)) }
    ensures agree { (claims : List ClaimRead) → AreNoted claims index.now → IfOk result (λ agree. agree
        ≡ list_all (is_claimed claims) (patterns_in index.now)) }
{
    let mut agree = true;
    let left = index.unclaimed(alloc)?;
    for spot in left.as_slice() {
        let text = unclaimed_line(alloc, spot.collection, spot.name)?;
        let bytes = text.as_slice();
        agree = agree_after(agree, bytes);
        put(bytes, block, writer);
    }
    Ok(agree)
}

/// Writes what does not agree between claims and the patterns of reports. Claims come first, in their order. For each cell
/// for which a table of patterns has something else, in their order, there is a line with `wrong`, the claim's name, the
/// column's name, what is claimed, and what the table has, or `-` for nothing. If there is no such pattern, there is a line
/// with `missing` and the name; if there is more than one, a line with `several` and the name. After the claims, each pattern
/// that no claim is about has a line, in the order of tables, with `unclaimed`, the name of its collection, a `/` and its
/// name. What is claimed, found and named is shown as `printable_text` shows it.
///
/// Returns whether anything was reported: nothing is exactly where each claim is about exactly one pattern, which has what it
/// says, and each pattern has a claim. The only error is out of memory; then a prefix has been written. To a writer that has
/// failed nothing is written.
pub fn put_verdict<W: Write>(
    alloc: Global,
    claims: &Claims,
    rows: &Rows,
    block: &mut Block,
    writer: &mut Output<W>,
) -> Result<bool, AllocError>
    requires { AreReports rows.now }
    ensures { IfOk result (λ any. (text : List ℕ)
        × IsVerdict (claims_read claims.now) (entries_of rows.now) any text
        × TellsAfter text (sheet block.old writer.old) (sheet block.new writer.new)) }
{
    let mut index = Index::of(alloc, rows)?;
    let mut agree = put_claims(alloc, claims, &mut index, block, writer)?;
    let claimed = put_unclaimed(alloc, &index, block, writer)?;
    agree &= claimed;
    Ok(!agree)
}
