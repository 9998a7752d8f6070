// Reads the texts of data/, and prints each reply with the places that were filled, row by row.
#![tactic(auto)]

mod show;

use files::{contents, read_file};
use printing::{number, text};
use show::{coordinates_of, graph_of};
use std::io;
use std::rt::Files;

// A graph file: its name, and the reply.
fn graph(rt: &(impl Files + Print), name: &[u8]) -> io::Result<()> {
    text(rt, b"gr ")?;
    text(rt, name)?;
    text(rt, b"\n")?;
    let mut bytes = [0u8; 65537];
    let read = read_file(rt, name, &mut bytes);
    graph_of(rt, contents(&bytes, read).unwrap_or(b""))
}

// A coordinate file for so many nodes: its name, and the reply.
fn coordinates(rt: &(impl Files + Print), name: &[u8], nodes: u32) -> io::Result<()> {
    text(rt, b"co ")?;
    text(rt, name)?;
    text(rt, b" ")?;
    number(rt, nodes)?;
    text(rt, b"\n")?;
    let mut bytes = [0u8; 65537];
    let read = read_file(rt, name, &mut bytes);
    coordinates_of(rt, contents(&bytes, read).unwrap_or(b""), nodes)
}

// The worked files, and the paper's lines that are refused.
fn worked(rt: &(impl Files + Print)) -> io::Result<()> {
    graph(rt, b"net.gr")?;
    coordinates(rt, b"net.co", 4)?;
    graph(rt, b"minus_weight.gr")?;
    graph(rt, b"weight_over.gr")?;
    coordinates(rt, b"node_0.co", 2)?;
    coordinates(rt, b"padded.co", 2)?;
    graph(rt, b"empty.gr")?;
    coordinates(rt, b"empty.co", 1)
}

// Lines, their ends and comments.
fn lines_and_comments(rt: &(impl Files + Print)) -> io::Result<()> {
    graph(rt, b"no_last_newline.gr")?;
    graph(rt, b"one_newline.gr")?;
    graph(rt, b"no_arcs.gr")?;
    graph(rt, b"comments.gr")?;
    graph(rt, b"comment_cr.gr")?;
    graph(rt, b"comment_tab.gr")?;
    graph(rt, b"comment_letters.gr")?;
    graph(rt, b"lines_end_in_cr.gr")?;
    coordinates(rt, b"cr.co", 1)?;
    graph(rt, b"empty_line.gr")
}

// Fields and what separates them.
fn separated_fields(rt: &(impl Files + Print)) -> io::Result<()> {
    graph(rt, b"leading_space.gr")?;
    graph(rt, b"trailing_space.gr")?;
    graph(rt, b"two_spaces.gr")?;
    graph(rt, b"tab.gr")?;
    graph(rt, b"field_missing.gr")?;
    graph(rt, b"field_extra.gr")?;
    graph(rt, b"letter_alone.gr")?;
    graph(rt, b"capital_letter.gr")?;
    coordinates(rt, b"word_misspelt.co", 2)?;
    graph(rt, b"co_in_gr.gr")?;
    coordinates(rt, b"gr_in_co.co", 2)
}

// The spelling of numbers.
fn spelt_numbers(rt: &(impl Files + Print)) -> io::Result<()> {
    graph(rt, b"plus.gr")?;
    graph(rt, b"padded.gr")?;
    graph(rt, b"zeros.gr")?;
    graph(rt, b"point.gr")?;
    coordinates(rt, b"minus_zero.co", 2)?;
    coordinates(rt, b"minus_alone.co", 2)?;
    coordinates(rt, b"two_minus.co", 2)?;
    coordinates(rt, b"minus_padded.co", 2)?;
    coordinates(rt, b"minus_node.co", 2)?;
    graph(rt, b"digits_60000_padded.gr")
}

// Data before `p`, and a second `p`.
fn order_of_lines(rt: &(impl Files + Print)) -> io::Result<()> {
    graph(rt, b"data_before_p.gr")?;
    coordinates(rt, b"data_before_p.co", 2)?;
    graph(rt, b"second_p.gr")?;
    coordinates(rt, b"second_p.co", 2)?;
    graph(rt, b"second_p_other.gr")?;
    graph(rt, b"second_p_malformed.gr")?;
    graph(rt, b"form_before_order.gr")?;
    graph(rt, b"order_before_limits.gr")
}

// Numbers within limits and beyond.
fn numbers_beyond_limits(rt: &(impl Files + Print)) -> io::Result<()> {
    graph(rt, b"weight_most.gr")?;
    graph(rt, b"node_0.gr")?;
    graph(rt, b"node_above_n.gr")?;
    graph(rt, b"node_wraps.gr")?;
    graph(rt, b"node_wraps_twice.gr")?;
    graph(rt, b"n_0.gr")?;
    graph(rt, b"n_513.gr")?;
    graph(rt, b"m_2049.gr")?;
    graph(rt, b"digits_60000.gr")
}

// Coordinates within limits and beyond.
fn coordinates_beyond_limits(rt: &(impl Files + Print)) -> io::Result<()> {
    coordinates(rt, b"any_order.co", 3)?;
    coordinates(rt, b"node_above_n.co", 2)?;
    coordinates(rt, b"coordinate_over.co", 2)?;
    coordinates(rt, b"coordinate_under.co", 2)?;
    coordinates(rt, b"p_513.co", 2)?;
    coordinates(rt, b"net.co", 0)?;
    coordinates(rt, b"net.co", 513)?;
    coordinates(rt, b"digits_60000.co", 2)
}

// Counts that disagree, and a node's second line.
fn counts_that_disagree(rt: &(impl Files + Print)) -> io::Result<()> {
    graph(rt, b"no_p.gr")?;
    graph(rt, b"arcs_lacking.gr")?;
    graph(rt, b"arc_beyond_m.gr")?;
    graph(rt, b"arc_beyond_m_and_limits.gr")?;
    coordinates(rt, b"net.co", 5)?;
    coordinates(rt, b"node_lacking.co", 2)?;
    coordinates(rt, b"node_twice.co", 2)?;
    coordinates(rt, b"node_twice_beyond.co", 2)?;
    coordinates(rt, b"line_beyond_n.co", 2)
}

// The largest texts.
fn largest_texts(rt: &(impl Files + Print)) -> io::Result<()> {
    graph(rt, b"largest.gr")?;
    graph(rt, b"arc_2049.gr")?;
    graph(rt, b"bytes_65536.gr")?;
    graph(rt, b"bytes_65537.gr")?;
    coordinates(rt, b"largest.co", 512)
}

fn main(rt: HostRuntime) -> io::Result<()> {
    worked(&rt)?;
    lines_and_comments(&rt)?;
    separated_fields(&rt)?;
    spelt_numbers(&rt)?;
    order_of_lines(&rt)?;
    numbers_beyond_limits(&rt)?;
    coordinates_beyond_limits(&rt)?;
    counts_that_disagree(&rt)?;
    largest_texts(&rt)
}
