//! Values of any depth, and whole texts.

ghost use Rattle.grammar.specs.Reader.{container_p, item_p, items_p, member_p, nested_p, text_p, turn_p, value_p};
ghost use Rattle.text.specs.Frames.{frame_for};
ghost use Rattle.text.specs.Reports.{Makes, Turns};

use crate::fault::Fault;
use crate::frame::Frame;
use crate::gaps::read_trivia;
use crate::scalars::{read_label, read_scalar};
use crate::sink::{Container, Sink, TokenKind};
use crate::tokens::{next_is_token, read_end, read_token};
use lexemes::bytes::next_is;
use lexemes::classes::ByteClass;
use std::ops::ControlFlow;

/// How many arrays and objects may stand inside one another.
pub const LEVELS: u8 = 64;

// member = string name-separator value
#[cycle(nesting)]
fn read_member<'a, S: Sink>(text: &'a [u8], levels: u8, sink: &mut S) -> Result<&'a [u8], Fault<'a>>
    ensures { Makes S.Sink.after (member_p (value_p levels)) text.now sink.old result sink.new }
{
    sink.enter(Container::Property);
    let value = read_label(text, sink)?;
    let rest = read_value(value, levels, sink)?;
    sink.leave(Container::Property);
    Ok(rest)
}

// an element of an array, or a member of an object
#[cycle(nesting)]
fn read_item<'a, S: Sink>(
    text: &'a [u8],
    frame: Frame,
    levels: u8,
    sink: &mut S,
) -> Result<&'a [u8], Fault<'a>>
    ensures { Makes S.Sink.after (item_p (frame_for frame) (value_p levels)) text.now sink.old result sink.new }
{
    match frame {
        Frame::Brackets => read_value(text, levels, sink),
        Frame::Braces => read_member(text, levels, sink),
    }
}

// trivia and the closing bracket, or trivia, an item, trivia, and a comma or the bracket
#[cycle(nesting)]
fn read_turn<'a, S: Sink>(
    text: &'a [u8],
    frame: Frame,
    levels: u8,
    sink: &mut S,
) -> Result<ControlFlow<&'a [u8], &'a [u8]>, Fault<'a>>
    ensures { Turns S.Sink.after (turn_p (frame_for frame) (value_p levels)) text.now sink.old result sink.new }
{
    let item = read_trivia(text, false, sink)?;
    let close = frame.closer();
    if next_is_token(item, close) {
        let rest = read_token(item, close, sink)?;
        return Ok(ControlFlow::Break(rest));
    }
    let gap = read_item(item, frame, levels, sink)?;
    let mark = read_trivia(gap, false, sink)?;
    read_end(mark, frame, sink)
}

// what follows an opening bracket
#[cycle(nesting)]
fn read_items<'a, S: Sink>(
    text: &'a [u8],
    frame: Frame,
    levels: u8,
    sink: &mut S,
) -> Result<&'a [u8], Fault<'a>>
    ensures { Makes S.Sink.after (items_p (frame_for frame) (value_p levels)) text.now sink.old result sink.new }
{
    let mut rest = text;
    loop {
        match read_turn(rest, frame, levels, sink)? {
            ControlFlow::Continue(next) => rest = next,
            ControlFlow::Break(end) => return Ok(end),
        }
    }
}

// array = begin-array .. end-array, object = begin-object .. end-object
#[cycle(nesting)]
fn read_container<'a, S: Sink>(
    text: &'a [u8],
    frame: Frame,
    levels: u8,
    sink: &mut S,
) -> Result<&'a [u8], Fault<'a>>
    ensures { Makes S.Sink.after (container_p (frame_for frame) (value_p levels)) text.now sink.old result sink.new }
{
    let container = frame.container();
    sink.enter(container);
    let inside = read_token(text, frame.opener(), sink)?;
    let rest = read_items(inside, frame, levels, sink)?;
    sink.leave(container);
    Ok(rest)
}

// an array or an object, of at most so many levels
#[cycle(nesting)]
fn read_nested<'a, S: Sink>(text: &'a [u8], levels: u8, sink: &mut S) -> Result<&'a [u8], Fault<'a>>
    ensures { Makes S.Sink.after (nested_p levels) text.now sink.old result sink.new }
{
    if levels == 0 {
        return Err(Fault::Deep);
    }
    if next_is_token(text, TokenKind::OpenArray) {
        return read_container(text, Frame::Brackets, levels - 1, sink);
    }
    read_container(text, Frame::Braces, levels - 1, sink)
}

/// A value of at most so many levels.
// value = false / null / true / object / array / number / string
#[cycle(nesting)]
pub fn read_value<'a, S: Sink>(
    text: &'a [u8],
    levels: u8,
    sink: &mut S,
) -> Result<&'a [u8], Fault<'a>>
    ensures { Makes S.Sink.after (value_p levels) text.now sink.old result sink.new }
{
    if next_is(text, ByteClass::Opening) {
        return read_nested(text, levels, sink);
    }
    read_scalar(text, sink)
}

/// A text, as far as it can be read.
// text = trivia [ value trivia ]
pub fn read_text<'a, S: Sink>(text: &'a [u8], sink: &mut S) -> Result<&'a [u8], Fault<'a>>
    ensures { Makes S.Sink.after (text_p 64) text.now sink.old result sink.new }
{
    let value = read_trivia(text, true, sink)?;
    if !next_is(value, ByteClass::ValueFirst) {
        return Ok(value);
    }
    let gap = read_value(value, LEVELS, sink)?;
    read_trivia(gap, true, sink)
}
