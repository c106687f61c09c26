//! A line, read exactly: the line that the bytes spell, or none.
ghost use Rattle.std.specs.Prelude.{◌≡◌, IfSome, IsNone, None as Nothing, false, true};
ghost use Rattle.scene_text.specs.LineReading.{IsReadAs, ReadsArguments, ReadsNoArguments, arguments, is_operation, word_of, word_text};
ghost use Rattle.scene_text.specs.LineTexts.{IsForm, line_text};
ghost use Rattle.scene_text.specs.declared.lines.Line.{Line as AnyLine};
ghost use Rattle.scene_text.specs.declared.lines.Word.{Word as AnyWord};

use crate::arguments::{
    add_line, client_line, del_line, deliver_line, get_line, need_line, nodes_line, part_line,
    put_line, puts_line, session_line, version_line,
};
use crate::lines::{Line, ReadLine, Word};
use crate::parting::{is_same, split_at_byte};

/// The kind of an operation's line whose first word these bytes are.
fn operation_word(bytes: &[u8]) -> Option<Word>
    ensures word { IfSome result (λ w. bytes.now ≡ word_text w) }
    ensures none { IsNone result → (w : AnyWord) → is_operation w ≡ true → ¬ (bytes.now ≡ word_text w) }
{
    if is_same(bytes, b"get") {
        return Some(Word::Get);
    }
    if is_same(bytes, b"put") {
        return Some(Word::Put);
    }
    if is_same(bytes, b"puts") {
        return Some(Word::Puts);
    }
    if is_same(bytes, b"add") {
        return Some(Word::Add);
    }
    if is_same(bytes, b"del") {
        return Some(Word::Del);
    }
    if is_same(bytes, b"need") {
        return Some(Word::Need);
    }
    if is_same(bytes, b"abort") {
        return Some(Word::Abort);
    }
    None
}

/// The kind of another line whose first word these bytes are.
fn other_word(bytes: &[u8]) -> Option<Word>
    ensures word { IfSome result (λ w. bytes.now ≡ word_text w) }
    ensures none { IsNone result → (w : AnyWord) → is_operation w ≡ false → ¬ (bytes.now ≡ word_text w) }
{
    if is_same(bytes, b"c") {
        return Some(Word::Client);
    }
    if is_same(bytes, b"d") {
        return Some(Word::Deliver);
    }
    if is_same(bytes, b"tx") {
        return Some(Word::Tx);
    }
    if is_same(bytes, b"session") {
        return Some(Word::Session);
    }
    if is_same(bytes, b"str") {
        return Some(Word::Version);
    }
    if is_same(bytes, b"nodes") {
        return Some(Word::Nodes);
    }
    if is_same(bytes, b"part") {
        return Some(Word::Part);
    }
    if is_same(bytes, b"schedule") {
        return Some(Word::Schedule);
    }
    if is_same(bytes, b"drain") {
        return Some(Word::Drain);
    }
    if is_same(bytes, b"end") {
        return Some(Word::End);
    }
    None
}

/// The kind of a line whose first word these bytes are.
fn read_word(bytes: &[u8]) -> Option<Word>
    ensures word { IfSome result (λ w. bytes.now ≡ word_text w) }
    ensures none { IsNone result → (w : AnyWord) → ¬ (bytes.now ≡ word_text w) }
{
    match operation_word(bytes) {
        Some(word) => Some(word),
        None => other_word(bytes),
    }
}

/// The kind of a line.
pub fn word_of(line: &Line) -> Word
    ensures { result ≡ word_of line.now }
{
    match line {
        Line::Version(_) => Word::Version,
        Line::Nodes(_) => Word::Nodes,
        Line::Part(_, _) => Word::Part,
        Line::Session(_) => Word::Session,
        Line::Tx => Word::Tx,
        Line::Get(_, _) => Word::Get,
        Line::Put(_, _, _) => Word::Put,
        Line::Puts(_, _, _) => Word::Puts,
        Line::Add(_, _, _) => Word::Add,
        Line::Del(_, _) => Word::Del,
        Line::Need(_, _, _) => Word::Need,
        Line::Abort => Word::Abort,
        Line::Schedule => Word::Schedule,
        Line::Client(_, _) => Word::Client,
        Line::Deliver(_) => Word::Deliver,
        Line::Drain => Word::Drain,
        Line::End => Word::End,
    }
}

/// The line of the kind that is one word.
fn lone_line(word: Word) -> Option<Line>
    ensures word { IfSome result (λ l. word_of l ≡ word) }
    ensures alone { IfSome result (λ l. arguments l ≡ Nothing) }
    ensures none { IsNone result → (l : AnyLine) → word_of l ≡ word → ¬ (arguments l ≡ Nothing) }
{
    match word {
        Word::Tx => Some(Line::Tx),
        Word::Abort => Some(Line::Abort),
        Word::Schedule => Some(Line::Schedule),
        Word::Drain => Some(Line::Drain),
        Word::End => Some(Line::End),
        _ => None,
    }
}

/// The line of the kind in which the text follows the first word and a space.
fn line_with(word: Word, text: &[u8]) -> Option<Option<Line>>
    ensures line { IfSome result (λ kept. ReadsArguments word text.now kept) }
    ensures none { IsNone result → ReadsNoArguments word text.now }
{
    match word {
        Word::Version => version_line(text),
        Word::Nodes => nodes_line(text),
        Word::Part => part_line(text),
        Word::Session => session_line(text),
        Word::Get => get_line(text),
        Word::Put => put_line(text),
        Word::Puts => puts_line(text),
        Word::Add => add_line(text),
        Word::Del => del_line(text),
        Word::Need => need_line(text),
        Word::Client => client_line(text),
        Word::Deliver => deliver_line(text),
        Word::Tx | Word::Abort | Word::Schedule | Word::Drain | Word::End => None,
    }
}

/// The line of one word that the bytes spell.
fn word_line(line: &[u8]) -> Option<ReadLine>
    ensures line { IfSome result (λ read. IsReadAs line.now read) }
    ensures none { IsNone result → (l : AnyLine) → arguments l ≡ Nothing → ¬ (line.now ≡ line_text l) }
{
    let word = read_word(line)?;
    let line = lone_line(word)?;
    Some(ReadLine {
        word,
        line: Some(line),
    })
}

/// What the bytes spell: the kind of the line, and the line itself where its numbers fit their types. `None` where they
/// spell no line of the form, whatever its numbers are.
pub fn read_line(line: &[u8]) -> Option<ReadLine>
    ensures line { IfSome result (λ read. IsReadAs line.now read) }
    ensures none { IsNone result → (l : AnyLine) → IsForm l → ¬ (line.now ≡ line_text l) }
{
    let Some((word, rest)) = split_at_byte(line, b' ') else {
        return word_line(line);
    };
    let word = read_word(word)?;
    let line = line_with(word, rest)?;
    Some(ReadLine { word, line })
}
