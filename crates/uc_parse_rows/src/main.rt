// Prints what the lexer and the parsers find, and what is counted and numbered in a program. A line of input is a kind, a
// number, a blank and a text; the kinds are
//
// - `lex COUNT TEXT`: the answer is the tokens of the text, each with its offset and its place, or the fault;
// - `place AT TEXT`: the answer is the line and the column of the offset;
// - `expr DEPTH TEXT`: the answer is the number of the next token and the expression with all its parentheses, or the fault;
// - `open COUNT TEXT`: the answer is the tokens of the text without bases of classes and `virtual`, the place of each class with
//   a base and the bytes of the base's name, and the place behind each `virtual`, or the fault;
// - `program COUNT TEXT`: the answer is the cells and numbers of the program and its `Size`, or the fault and its place.
//
// In all texts `^` and two hexadecimal digits stand for a byte, and `^^` for so many times `a` as the number says. A line that
// begins with `#`, and one that is no such line, is copied.
#![tactic(auto)]

mod bytes;
mod numbers;
mod rows;
mod tree;

use crate::rows::answer;
use std::io;

fn main(rt: HostRuntime) -> io::Result<()> {
    let alloc = rt.alloc();
    for line in rt.lines(alloc) {
        let answer = answer(alloc, line?.as_str())?;
        println!(rt; "{answer}")?;
    }
    Ok(())
}
