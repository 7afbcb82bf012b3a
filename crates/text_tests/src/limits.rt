// Texts at the limits of a drawn chart, built line by line.
use super::helpers::{refused, written_back};
use chart::Chart;
use drawn::Drawn;
use std::alloc::{AllocError, Global};
use std::test::Fail;
use text::read;

/// Adds a heading with its count, and the line that often.
fn add_lines(
    heap: Global,
    text: &mut Vec<u8>,
    heading: &str,
    count: usize,
    line: &[u8],
) -> Result<(), AllocError> {
    let heading = format!(in heap; "{heading}={count}\n")?;
    text.extend_from_slice(heading.as_bytes())?;
    for _ in 0..count {
        text.extend_from_slice(line)?;
    }
    Ok(())
}

/// The text of so many vertices, up to where its moves begin.
fn with_vertices(heap: Global, count: usize) -> Result<Vec<u8>, AllocError> {
    let mut text = Vec::new(heap);
    add_lines(heap, &mut text, "vertices", count, b"vertex=1,8\n")?;
    Ok(text)
}

/// The text of 128 vertices and so many moves.
fn with_moves(heap: Global, count: usize) -> Result<Vec<u8>, AllocError> {
    let mut text = with_vertices(heap, 128)?;
    add_lines(heap, &mut text, "moves", count, b"move=100,127,10000\n")?;
    Ok(text)
}

#[test]
fn the_fullest_chart(rt: HostRuntime) -> Result<(), Fail> {
    let text = with_moves(rt.alloc(), 1024)?;
    let mut chart = Drawn::new();
    read(&mut chart, text.as_slice())?;
    assert_eq!(rt; chart.size(), 128);
    assert_eq!(rt; chart.degree(100), Some(1024));
    written_back(&chart, text.as_slice())
}

#[test]
fn the_129th_vertex(rt: HostRuntime) -> Result<(), Fail> {
    let text = with_vertices(rt.alloc(), 129)?;
    refused(text.as_slice(), 3, 130, "the 129th vertex")
}

#[test]
fn the_1025th_move(rt: HostRuntime) -> Result<(), Fail> {
    let text = with_moves(rt.alloc(), 1025)?;
    refused(text.as_slice(), 6, 1155, "the 1025th move")
}
