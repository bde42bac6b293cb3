//! The texts after clap's own help.

// The exit statuses, after other parts.
macro_rules! with_statuses {
    ($($before:literal),*) => {
        concat!(
            $($before,)*
            "\
Exit status: 0 done, 1 input refused, 2 bad command line, 3 out of memory,
4 reading or writing failed, 5 same or verify found something. Standard error
says what was wrong."
        )
    };
}

// The lines of a report and the exit statuses, after other parts.
macro_rules! with_report {
    ($($before:literal),*) => {
        with_statuses!(
            $($before,)*
            "\
Lines of a report, of pattern I of collection C ('census help report'):
  open C PATTERNS NAME
  line C I ok RULE POPULATION ONSET PERIOD DX DY CODE NAME  recurs in the bound
  line C I none RULE POPULATION NAME                        none of these
  line C I large RULE POPULATION GENERATION NAME            past --cells there
  line C I bad FAULT NAME                                   its text is refused
  code C RULE CODE COUNT                                    all with CODE
  close C PATTERNS RESOLVED UNRESOLVED REFUSED              how many of each
  end COLLECTIONS PATTERNS                                  the last line

"
        )
    };
}

// The lines of a report of objects and the exit statuses, after other parts.
macro_rules! with_objects {
    ($($before:literal),*) => {
        with_statuses!(
            $($before,)*
            "\
Lines of a report, of pattern I of collection C ('census help report'):
  open C PATTERNS NAME
  line C I ok RULE POPULATION ONSET PERIOD DX DY CODE NAME  becomes one part
  line C I ash RULE POPULATION ONSET OBJECTS NAME           none, or several
  part C I CODE COUNT                                       its parts with CODE
  line C I grows RULE POPULATION ENGINES NAME               grows for ever
  engine C I E PERIOD DX DY COUNT                           those of kind E
  emits C I E CODE COUNT                                    each in a period
  line C I none RULE POPULATION NAME                        none of these
  line C I large RULE POPULATION GENERATION NAME            past --cells there
  line C I bad FAULT NAME                                   its text is refused
  code C RULE CODE COUNT                                    all with CODE
  close C PATTERNS RESOLVED UNRESOLVED REFUSED              how many of each
  end COLLECTIONS PATTERNS                                  the last line

"
        )
    };
}

/// What `--keep-going` does.
pub const KEEP_GOING: &str = "\
Go on past what can't be read, with status 4 at the end,
and past patterns that run out of memory, with status 3.
Both have FAULT 0 in the report";

/// What `--explain` does.
pub const EXPLAIN: &str = "\
Also say on standard error where each fault is, what is
wrong and what would be right";

/// What `--no-progress` does.
pub const NO_PROGRESS: &str = "\
Do not show at a terminal how far the run has come";

/// What `--input` does.
pub const INPUT: &str = "\
Bytes that the files of the FOLDERs may have together,
1 to 9223372036854775807 [default: no limit]";

/// What `--names` does.
pub const NAMES: &str = "\
Give the names of codes too. FILE has lines of a code, a
tab and a name; - is standard input";

/// What `--base` does.
pub const BASE: &str = "\
Make each name a link to URL, COLLECTION_NAME, / and NAME
joined; URL begins with http:// or https://";

/// What `--cut` does.
pub const CUT: &str = "\
Take a report that was cut: collections that are whole
are kept, and a line on standard error says what was left
out";

/// What `--input` does where reports are read.
pub const REPORT_INPUT: &str = "\
Bytes that the REPORTs may have together,
1 to 9223372036854775807 [default: no limit]";

/// What `--starts` does.
pub const STARTS: &str = "\
Take each REPORT for a FOLDER of patterns, and list those
that are the same at the start";

/// What a FILE is.
pub const FILE: &str = "An RLE text; - is standard input.\nWith no FILE standard input is read";

/// What a REPORT is.
pub const REPORT: &str = "\
A file with a report of run or objects, or with several
after one another; - is standard input. With no REPORT
standard input is read";

/// After the help of the program.
pub const PROGRAM: &str = with_report!(
    "\
run [--bound N] [--workers N] [--cells N] [--input N] [-r] [-k] [FOLDER]...
  -b, --bound N    generations that are searched, 1 to 1000000 [default: 1000]
  -w, --workers N  threads that work, 1 to 16 [default: 4]
      --cells N    live cells that a pattern may have, 1 to 4294967295
                   [default: no limit]
      --input N    bytes that the files of the FOLDERs may have together, 1 to
                   9223372036854775807 [default: no limit]
  -r, --recursive  take the folders below each FOLDER too that have *.rle files
  -k, --keep-going go on past what can't be read, with status 4 at the end, or
                   past patterns out of memory, with status 3: both have FAULT 0
  FOLDER           a collection: its patterns are the *.rle files in the folder;
                   with no FOLDER a bundle of collections is read from standard
                   input
objects [--bound N] [--workers N] [--cells N] [--near] [--horizon N] [--input N]
        [-r] [-k] [FOLDER]...
                   as run, but another report ('census help objects'), and
  -b, --bound N    1 to 100000 [default: 10000]
      --cells N    1 to 4294967295 [default: 200000]
      --near       count what comes within two cells as one object
      --horizon N  generations within which growth is looked for, 1 to 10000
                   [default: 1000]
identify [--bound N] [--cells N] [--near] [--horizon N] [--json] [--names FILE]
         [FILE]...
                   what each pattern is ('census help identify')
  -b, --bound N    1 to 100000 [default: 10000]
      --cells N    1 to 4294967295 [default: 200000]
      --near       count what comes within two cells as one object
      --horizon N  generations within which growth is looked for, 1 to 10000
                   [default: 1000]
      --json       JSON, one object a line
      --names FILE give the names of codes too: FILE has lines of a code, a tab
                   and a name
  FILE             an RLE text; - is standard input; with no FILE standard input
                   is read
advance N [--cells N] [FILE]
  N                generations, 0 to 4194304
      --cells N    live cells that each may have, 1 to 4294967295
                   [default: no limit]
  FILE             the RLE text; - or no FILE is standard input
draw CODE [--rule R]
  CODE             an apgcode, or the part of one after its first _
      --rule R     a Life-like rule without B0 [default: B3/S23]
merge [REPORT]...  one report of all collections ('census help merge')
  REPORT           a file with a report of run or objects, or with several after
                   one another; - or no REPORT is standard input
table [--csv | --json] [--safe] [--parts | --engines | --codes] [--sort ORDER]
      [--unnamed] [--names FILE] [REPORT]...
                   a row for each pattern of reports ('census help table')
      --csv        comma-separated values, as without a format
      --json       JSON, one object a line
      --safe       in CSV, a ' before each text that begins as a formula
      --parts      a row for each part line in place of each pattern
      --engines    a row for each thing that engines emit
      --codes      a row for each code and rule, by falling count
      --sort ORDER the order of the codes: report, or rare, the rarest first
                   [default: report]
      --unnamed    leave out the codes that have a name
      --names FILE a column of the names of codes, as of identify
page [--title TEXT] [--note TEXT] [--sort ORDER] [--top N] [--base URL]
     [--links] [--no-patterns] [--names FILE] [REPORT]...
                   one HTML page, with pictures ('census help page')
      --title TEXT the title of the page [default: Census]
      --note TEXT  a text under the title
      --sort ORDER the order of the codes: report, count, rare, code, period or
                   name [default: report]
      --top N      codes of each collection, 1 to 4294967295 [default: all]
      --base URL   make each name a link to URL, COLLECTION_NAME, / and NAME
                   joined; URL begins with http:// or https://
      --links      make each code of up to 100 letters a link to its page at
                   Catagolue
      --no-patterns
                   leave out patterns, but for the first of each code and those
                   that are unresolved
      --names FILE the names of codes, in bold, as of identify
same [--json] [--starts [-r]] [REPORT]...
                   patterns of reports that are one object ('census help same')
      --json       JSON, one object a line
      --starts     take each REPORT for a FOLDER of patterns, and list those
                   that are the same at the start
  -r, --recursive  take the folders below each FOLDER too that have *.rle files
verify CLAIMS [REPORT]...
                   where claims and reports differ ('census help verify')
  CLAIMS           a file of comma-separated values with a column name; - is
                   standard input
merge, table, page, same and verify
      --cut        take a report that was cut: collections that are whole are
                   kept, and a line on standard error says what was left out
      --input N    bytes that the REPORTs may have together, 1 to
                   9223372036854775807 [default: no limit]
run and objects
      --no-progress
                   do not show at a terminal how far the run has come
each of these
      --explain    also say on standard error where each fault is, what
                   is wrong and what would be right
The help of each has examples: census help run
The lines of a report are in census help report, a bundle in census help bundle

"
);

/// What the lines of a report say.
pub const REPORT_LINES: &str = "\
A report of run or objects has fields with one blank between two. C numbers the
collections and I the patterns of each, both from 1. NAME may have blanks.

open C PATTERNS NAME
  collection C begins; it has PATTERNS patterns
line C I ok RULE POPULATION ONSET PERIOD DX DY CODE NAME
  pattern I recurs: ONSET is the first generation that does, for the first time
  after PERIOD generations, moved DX to the right and DY down; CODE is its
  apgcode, and xs0_0 where all cells die; of objects, it becomes one object;
  POPULATION is always that of generation 0
line C I ash RULE POPULATION ONSET OBJECTS NAME
  of objects: from generation ONSET on it is OBJECTS objects, none or several,
  each of which recurs, and which never meet
part C I CODE COUNT
  after ash: COUNT of the objects have CODE
line C I grows RULE POPULATION ENGINES NAME
  of objects: it grows for ever, by ENGINES engines
engine C I E PERIOD DX DY COUNT
  after grows: COUNT of the engines are of kind E, from 1; each recurs after
  PERIOD generations, moved DX to the right and DY down
emits C I E CODE COUNT
  after engine: each of kind E leaves COUNT objects with CODE in a period
line C I none RULE POPULATION NAME
  none of these in the bound
line C I large RULE POPULATION GENERATION NAME
  GENERATION is the first with more cells than --cells allows
line C I bad FAULT NAME
  its text is refused: it has RLE fault 1 to 10, or can't be read, which is 0
code C RULE CODE COUNT
  after all patterns: COUNT ok lines and objects of part lines have CODE
close C PATTERNS RESOLVED UNRESOLVED REFUSED
  collection C ends; RESOLVED patterns are ok, ash or grows, UNRESOLVED none or
  large, and REFUSED bad
end COLLECTIONS PATTERNS
  the report ends; one without this line was cut
";

/// What a bundle is.
pub const BUNDLE: &str = "\
A bundle has collections of patterns in one text. run and objects read one from
standard input where no FOLDER is named:

  @folder demo
  @file glider
  x = 3, y = 3
  bo$2bo$3o!
  @file block
  x = 2, y = 2
  2o$2o!

@folder NAME
  a collection begins, with no pattern yet
@file NAME
  a pattern of it begins; its RLE text is all up to the next line that begins
  with @

No other line begins with @. NAME goes on to the end of its line: 1 to 255
bytes, no control characters, and no blank at either end. A name may come again.
There are at most 65535 collections, with at most 65535 patterns each, in at
most 67108864 bytes.

'census help run' has a command that makes a bundle of files.
";

/// After the help of `run`.
pub const RUN: &str = with_report!(
    "\
Example: census run soups gliders
         census run --bound 50000 --workers 16 soups
         census run --cells 100000 --recursive --keep-going soups old
         census run --explain <bundle.txt
         census run --no-progress soups >report.txt
         census run --input 1000000000 --recursive soups

To make a bundle of files, where echo ends a last line that has no line feed:
  (echo @folder demo; for f in *.rle; do echo \"@file $f\"; cat \"$f\"; echo; done)

"
);

/// After the help of `objects`.
pub const OBJECTS: &str = with_objects!(
    "\
Independent parts are counted: each goes on as it would alone, and so a traffic
light is four blinkers. With --near what comes within two cells is one object:
a traffic light then differs from blinkers that are far from each other.

Example: census objects soups gliders
         census objects --bound 50000 --workers 16 soups
         census objects --near soups
         census objects --horizon 5000 guns
         census objects --cells 20000 --recursive --keep-going soups old
         census objects --explain <bundle.txt
         census objects --no-progress soups >report.txt
         census objects --input 1000000000 --recursive soups

"
);

/// After the help of `identify`.
pub const IDENTIFY: &str = with_statuses!(
    "\
Lines of each text, with an empty line between two texts:
  file FILE            where it is not standard input
  rule RULE
  population CELLS     of generation 0
  box WIDTH HEIGHT     around them
and where the pattern becomes one part in the bound
  onset GENERATION     the first that recurs,
  period GENERATIONS   after this many generations,
  displacement DX DY   moved this far to the right and down
  apgcode CODE         of the part
or else where it becomes none, or several, in the bound
  onset GENERATION     the first that is ash,
  period GENERATIONS   and displacement of the whole, where all parts have one
  displacement DX DY   velocity, and this period is at most the bound,
  objects COUNT        that it has become ('census help objects' says which)
  part CODE COUNT      those with CODE
or else where it is found to grow for ever
  engines COUNT        by which it grows,
  engine E PERIOD DX DY COUNT
                       those of kind E, and how many they are,
  emits E CODE COUNT   what each of them emits in a period
or else where it has more cells than --cells allows
  large GENERATION     the first that has
or else
  unresolved N         none of these within N generations

With --names the line name NAME follows apgcode, and lines of parts and of what
engines emit end with NAME, where CODE has one. In the file of names a line that
begins with # is skipped, and no code comes twice.

With --json there is an object a line for each text.

Example: census identify --bound 50000 glider.rle gun.rle
         census identify --near soup.rle
         census identify --cells 20000 --horizon 5000 breeder.rle
         census identify --json --names names.tsv soup.rle
         census identify --explain broken.rle

"
);

/// After the help of `advance`.
pub const ADVANCE: &str = with_statuses!(
    "\
With --cells each generation from 0 to N is made in turn. The first one that has
more cells ends it: nothing is written, and the error says which it is.

Example: census advance 1103 r_pentomino.rle
         census advance 5000 --cells 100000 --explain <soup.rle

"
);

/// After the help of `merge`.
pub const MERGE: &str = with_statuses!(
    "\
The collections of the first REPORT come first, those of the others are numbered
on, and the last line, end, has the sums.

With --cut a report may have been cut, as where a run was stopped: collections
that are whole are kept, and a line on standard error says where it was cut, how
many of them are kept, and how many left out.

Example: census merge part1.txt part2.txt >census.txt
         census run more | census merge --explain census.txt -
         census merge --cut --input 1000000000 stopped.txt >census.txt

"
);

/// After the help of `table`.
pub const TABLE: &str = with_statuses!(
    "\
The columns: collection, collection_name, pattern, name, status (ok, ash, grows,
none, large or bad), rule, population, onset, period, dx, dy, code, fault; where
a name is no UTF-8, its bytes in hex in collection_name_hex or name_hex; then
objects of what is ash, generation, the first that is too large, engines of what
grows, and fault_text, the fault in words. Where what grows has one engine,
period, dx and dy are that engine's.

With --parts: collection, collection_name, pattern, name, rule, code, count.

With --engines, for each engine line and each thing that it emits: collection,
collection_name, pattern, name, rule, engine (the number of the line), kind
(gun, rake or puffer), period, dx, dy, count, emits, emits_count.

With --codes: rule, code, count, patterns (in how many), of the first of them
first_collection_name and first_name, and share, the part of all objects,
rounded half up to six digits; by falling count, and then in the order of codes,
shorter ones first. With --sort rare the count rises. A pattern that recurs
counts as one object, and each part of one that has fallen apart. With --unnamed
codes that FILE names are left out; the shares of the others stay as they are.

With --safe, of CSV only, each text that begins with =, +, -, @, a tab or a
carriage return, which a spreadsheet takes for a formula, has a ' before it.
Numbers stay as they are.

With --names a column common_name follows code or emits. FILE has lines of a
code, a tab and a name; a line that begins with # is skipped, and no code comes
twice.

Example: census table --csv census.txt >census.csv
         census run soups | census table --json
         census objects soups | census table --codes
         census table --safe --parts census.txt >parts.csv
         census table --codes --names names.tsv census.txt
         census table --codes --sort rare --unnamed --names names.tsv census.txt
         census table --cut --input 1000000000 --explain stopped.txt

"
);

/// After the help of `page`.
pub const PAGE: &str = with_statuses!(
    "\
Of each collection the page has the counts, the codes with a picture of each,
how often each occurs and which patterns have it, and the patterns that are
unresolved or refused. It is one file without scripts, and loads nothing. Where
100 or more patterns recur or fall apart, it also has how long they live: how
many have which onset, the median, and the ten patterns that live longest.

The order of the codes is that of the report, or by falling count, by rising
count with rare, by code, by falling period, or by the name of the first pattern
that has it. With --top the page says how many codes are left out.

With --names the row of a code has its name in bold. FILE has lines of a code, a
tab and a name; a line that begins with # is skipped, and no code comes twice.

Example: census page census.txt >census.html
         census page --title Soups --note 'Bound 10000' census.txt
         census page --sort count --top 100 census.txt
         census page --names names.tsv --sort rare --no-patterns census.txt
         census page --base https://example.org/patterns/ --links census.txt
         census page --no-patterns --cut --input 1000000000 stopped.txt
         census page --explain census.txt

"
);

/// After the help of `same`.
pub const SAME: &str = with_statuses!(
    "\
For each rule and code that more than one pattern has there is a line with them,
and for each of these patterns a line of two blanks, the name of its collection,
/ and its own. The status is 5 where there is such a code, and else 0.

Patterns with one rule and one code are one object, turned, mirrored or at
another age, and those with two are not. What has no ok line is left out: where
there is such a pattern, a line on standard error says how many were compared.

With --starts patterns of FOLDERs, or of a bundle, are compared as they begin,
moved, turned or mirrored. In place of a code there is _ and what draw takes.

With --json there is an object for each of these patterns, with rule, code,
collection_name and name; where a name is no UTF-8, its bytes in hex are in
collection_name_hex or name_hex.

Example: census same census.txt
         census run -r collections | census same --json
         census same --explain old.txt new.txt
         census same --starts -r collections
         census same --cut --input 1000000000 stopped.txt

"
);

/// After the help of `verify`.
pub const VERIFY: &str = with_statuses!(
    "\
CLAIMS has comma-separated values under a row of names, as 'census table --csv'
writes them: name, and as many as are claimed of collection_name, status, rule,
population, onset, period, dx, dy, code (or apgcode), objects and engines. An
empty cell claims nothing, and other columns are skipped: a line on standard
error says which are compared, and which are not. A claim is about the one
pattern of its name, in the collection of that name where it has one. What does
not agree is written:

  wrong NAME COLUMN CLAIMED FOUND  a cell that the table has otherwise; FOUND is
                                   - where the table has nothing
  missing NAME                     no pattern has this name
  several NAME                     more than one has
  unclaimed COLLECTION_NAME/NAME   no claim is about this pattern

The status is 5 where a line was written, and else 0.

Example: census verify published.csv census.txt
         census run collection | census verify published.csv
         census table --csv census.txt | census verify - census.txt
         census verify --explain published.csv census.txt
         census verify --cut --input 1000000000 published.csv stopped.txt

"
);

/// After the help of `draw`.
pub const DRAW: &str = with_statuses!(
    "\
Example: census draw xq4_153
         census draw 33 --rule B36/S23
         census draw --explain xs4_33

"
);
