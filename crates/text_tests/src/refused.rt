// Broken texts, each with its refusal and its line.
use super::helpers::refused;
use std::test::Fail;

#[test]
fn broken_texts_1() -> Result<(), Fail> {
    refused(b"", 23, 1, "empty input")?;
    refused(b"\n", 23, 1, "only a line end")?;
    refused(b"vertices=0\nmoves=0", 23, 2, "no final line end")?;
    refused(b"vertices=0\r\nmoves=0\r\n", 23, 1, "carriage returns")?;
    refused(b"vertices= 0\nmoves=0\n", 23, 1, "a space")?;
    refused(b"vertices=+1\nvertex=0,0\nmoves=0\n", 23, 1, "a plus sign")?;
    refused(b"vertices=00\nmoves=0\n", 23, 1, "two zeros")?;
    refused(
        b"vertices=1\nvertex=0,01\nmoves=0\n",
        23,
        2,
        "a leading zero",
    )
}

#[test]
fn broken_texts_2() -> Result<(), Fail> {
    refused(b"vertices=100000\n", 23, 1, "six digits")?;
    refused(
        b"vertices=2\nvertex=0,0\nmoves=0\n",
        23,
        3,
        "a count one too high",
    )?;
    refused(
        b"vertices=0\nvertex=0,0\nmoves=0\n",
        23,
        2,
        "a count one too low",
    )?;
    refused(
        b"vertices=1\nvertex=00\nmoves=0\n",
        23,
        2,
        "a missing comma",
    )?;
    refused(
        b"vertices=1\nvertex=0,0,\nmoves=0\n",
        23,
        2,
        "an extra comma",
    )?;
    refused(
        b"vertices=1\nvertex=0,0,0\nmoves=0\n",
        23,
        2,
        "an extra number",
    )?;
    refused(b"Vertices=0\nmoves=0\n", 23, 1, "upper case")?;
    refused(
        b"vertices=0\nmoves=0\nvertices=0\nmoves=0\n",
        23,
        3,
        "a second text behind the first",
    )
}

#[test]
fn broken_texts_3() -> Result<(), Fail> {
    refused(b"vertices=0\0\nmoves=0\n", 23, 1, "byte 0")?;
    refused(b"vertices=\xff\nmoves=0\n", 23, 1, "a byte above 127")?;
    refused(
        b"vertices=1\nmoves=0\nvertex=0,0\n",
        23,
        2,
        "vertices behind moves",
    )?;
    refused(b"vertices=0\nmoves=0\n\n", 23, 3, "a line end for an end")?;
    refused(
        b"vertices=2\nvertex=0,0\nvertex=0,0\nmoves=2\nmove=1,0,0\nmove=0,0,0\n",
        23,
        6,
        "a falling vertex",
    )?;
    refused(
        b"vertices=1\nvertex=0,0\nmoves=2\nmove=0,0,0\n",
        23,
        5,
        "too few moves",
    )?;
    refused(
        b"vertices=1\nvertex=0,0\nmoves=0\nmove=0,0,0\n",
        23,
        4,
        "too many moves",
    )?;
    refused(b"vertices=1\nvertex=2,0\nmoves=0\n", 1, 2, "an owner of 2")
}

#[test]
fn broken_texts_4() -> Result<(), Fail> {
    refused(
        b"vertices=1\nvertex=256,9\nmoves=0\n",
        1,
        2,
        "an owner of 256",
    )?;
    refused(
        b"vertices=2\nvertex=0,0\nvertex=0,9\nmoves=0\n",
        2,
        3,
        "a colour of 9",
    )?;
    refused(
        b"vertices=1\nvertex=0,0\nmoves=1\nmove=0,65536,0\n",
        4,
        4,
        "an absent target",
    )?;
    refused(
        b"vertices=1\nvertex=0,0\nmoves=1\nmove=1,0,0\n",
        4,
        4,
        "an absent start",
    )?;
    refused(
        b"vertices=1\nvertex=0,0\nmoves=1\nmove=0,0,10001\n",
        5,
        4,
        "a cost of 10001",
    )?;
    refused(
        b"vertices=1\nvertex=0,0\nmoves=1\nmove=0,0,65537\n",
        5,
        4,
        "a cost of 65537",
    )
}
