// The worked charts, each in its one text.
use super::helpers::accepted;
use std::test::Fail;

#[test]
fn no_vertices() -> Result<(), Fail> {
    accepted(b"vertices=0\nmoves=0\n", 0, 0)
}

#[test]
fn vertices_without_moves() -> Result<(), Fail> {
    accepted(b"vertices=2\nvertex=0,8\nvertex=1,0\nmoves=0\n", 2, 0)
}

#[test]
fn a_gap_and_its_refill() -> Result<(), Fail> {
    accepted(
        b"vertices=2\nvertex=0,1\nvertex=0,2\nmoves=2\nmove=0,1,3\nmove=1,0,4\n",
        2,
        2,
    )
}

#[test]
fn costs_from_nothing_to_the_dearest() -> Result<(), Fail> {
    accepted(
        b"vertices=1\nvertex=1,7\nmoves=3\nmove=0,0,0\nmove=0,0,10000\nmove=0,0,9\n",
        1,
        3,
    )
}

#[test]
fn a_basin_with_a_harbour() -> Result<(), Fail> {
    accepted(
        b"vertices=3\nvertex=1,0\nvertex=0,1\nvertex=0,2\nmoves=5\nmove=0,0,5\nmove=0,1,0\nmove=1,2,7\nmove=1,0,5\nmove=2,0,5\n",
        3,
        5,
    )
}
