//! The kernel that computes eight rows, and the plain one to which it is compared.

use life_cells::Rule;
use life_plane::{Around, Change, Logic, Tile, Window, band};

#[test]
fn both_kernels_turn_two_blinkers_across_the_edges_of_a_band(rt: HostRuntime) {
    let empty = Tile::EMPTY;
    let mut here = Tile::EMPTY;
    // One blinker lies across the western edge in the first row.
    let mut west = Tile::EMPTY;
    west.set(63, 8, true);
    here.set(0, 8, true);
    here.set(1, 8, true);
    // The other is upright, with its top in the last row.
    here.set(5, 15, true);
    here.set(5, 16, true);
    here.set(5, 17, true);
    let around = Around {
        north: &empty,
        north_east: &empty,
        east: &empty,
        south_east: &empty,
        south: &empty,
        south_west: &empty,
        west: &west,
        north_west: &empty,
    };
    let next = here.next(&around, &Rule::life());
    let mut out = here;
    let change = band(
        &Logic::of(&Rule::life()),
        &Window::of(&here, &around, 8),
        &mut out,
    );
    let worked = Change {
        all: 35,
        first: 2,
        last: 32,
    };
    assert!(rt; change == worked);
    for y in 8..16 {
        assert!(rt; out.rows[y] == next.rows[y]);
    }
    assert!(rt; next.rows[7] == 1 && next.rows[8] == 1 && next.rows[9] == 1);
    assert!(rt; next.rows[15] == 0 && next.rows[16] == 112);
}
