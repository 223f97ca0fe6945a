//! A statement that is refused for a limit: what was counted, and which statements of triggers' bodies had begun in it.
ghost use Rattle.std.specs.Prelude.{◌≡◌, ◌<◌, ◌^◌, ◌-◌, ◌++◌, [], Some, None, codes, decimal};
ghost use Rattle.iv_text.specs.Counts.{counted};
ghost use Rattle.iv_text.specs.Spelled.{spelled};
ghost use Rattle.iv_text.specs.Ways.{before_last, begun_after, begun_at, begun_text, depth_after, depth_from, depth_words, further_text, last_text, latest_after, latest_from, limit_line, limit_of, limit_text, limit_words, name_of_trigger, third_text, transaction_words, used_after, used_from, used_words, way_text};
ghost use Rattle.iv_machine.specs.Bounds.{most_changes_in_a_transaction};
ghost use Rattle.iv_text.specs.Writing.{Writes};

use crate::device::{DeviceFault, Sink};
use crate::format::Format;
use crate::names::trigger_in;
use crate::spelled::{tell, tell_between, tell_nothing};
use crate::spelled_number::{tell_number_after, tell_number_between};
use crate::write::{write_all, write_nothing};
use itoa::Buffer;
use iv_account::Entry;
use iv_catalogue::{Catalogue, Cause, Refusal, TriggerId};
use iv_machine::{Answer, Limits, MOST_CHANGES_IN_A_TRANSACTION};

/// A data statement of a trigger's body that has begun, by its place there.
#[derive(Clone, Copy)]
pub struct Begun {
    pub trigger: Option<TriggerId>,
    pub place: u32,
}

/// What is known of a level of an account: the trigger that ran last there, and the statement that began last there.
#[derive(Clone, Copy)]
pub struct Latest {
    pub trigger: Option<TriggerId>,
    pub begun: Option<Begun>,
}

// ---- how deep, and which statements

/// How deep the entry after this one is.
pub fn depth_after(depth: usize, entry: &Entry) -> usize
    requires { depth < 2 ^ 64 - 1 }
    ensures { result ≡ depth_after depth entry.now }
{
    match entry {
        Entry::Began(_) => depth + 1,
        Entry::Ended => depth.saturating_sub(1),
        _ => depth,
    }
}

// How many statements have begun and not ended.
fn depth_of(entries: &[Entry]) -> usize
    ensures { result ≡ depth_from 0 entries.now }
{
    let mut rest = entries;
    let mut depth = 0usize;
    while let Some((entry, others)) = rest.split_first() {
        depth = depth_after(depth, entry);
        rest = others;
    }
    depth
}

fn latest_after(level: usize, depth: usize, latest: Latest, entry: &Entry) -> Latest
    ensures { result ≡ latest_after level depth latest entry.now }
{
    if depth != level {
        return latest;
    }
    match entry {
        Entry::Ran(id, _) => Latest {
            trigger: Some(*id),
            begun: latest.begun,
        },
        Entry::Began(place) => Latest {
            trigger: latest.trigger,
            begun: Some(Begun {
                trigger: latest.trigger,
                place: *place,
            }),
        },
        _ => latest,
    }
}

// The statement that began last at this level.
fn begun_at(level: usize, entries: &[Entry]) -> Option<Begun>
    ensures { result ≡ begun_at level entries.now }
{
    let mut rest = entries;
    let mut depth = 0usize;
    let mut latest = Latest {
        trigger: None,
        begun: None,
    };
    while let Some((entry, others)) = rest.split_first() {
        latest = latest_after(level, depth, latest, entry);
        depth = depth_after(depth, entry);
        rest = others;
    }
    latest.begun
}

// ---- the way in words

fn trigger_named(catalogue: &Catalogue, id: Option<TriggerId>) -> &str
    ensures { result.now ≡ name_of_trigger catalogue.now id }
{
    let Some(id) = id else {
        return "";
    };
    trigger_in(catalogue, id)
}

fn tell_begun<W: Sink>(
    writer: &mut W,
    format: Format,
    catalogue: &Catalogue,
    begun: Option<Begun>,
) -> Result<(), DeviceFault>
    ensures { Writes (W.state writer.old) (W.state writer.new) result
        (spelled format (begun_text catalogue.now begun)) }
{
    match begun {
        Some(begun) => {
            let mut buffer = Buffer::new();
            let name = trigger_named(catalogue, begun.trigger);
            tell_between(
                writer,
                format,
                name.as_bytes(),
                b" statement ",
                buffer.format(begun.place).as_bytes(),
            )
        }
        None => tell_nothing(writer, format),
    }
}

// The statement that began last at this level.
fn tell_begun_at<W: Sink>(
    writer: &mut W,
    format: Format,
    catalogue: &Catalogue,
    entries: &[Entry],
    level: usize,
) -> Result<(), DeviceFault>
    ensures { Writes (W.state writer.old) (W.state writer.new) result
        (spelled format (begun_text catalogue.now (begun_at level entries.now))) }
{
    tell_begun(writer, format, catalogue, begun_at(level, entries))
}

// The same after these words.
#[tactic(auto, using(crate::proofs::SpelledLemmas::spelled_then), unfolding(crate::specs::Ways::begun_after))]
fn tell_begun_after<W: Sink>(
    writer: &mut W,
    format: Format,
    words: &[u8],
    catalogue: &Catalogue,
    entries: &[Entry],
    level: usize,
) -> Result<(), DeviceFault>
    ensures { Writes (W.state writer.old) (W.state writer.new) result
        (spelled format (begun_after catalogue.now entries.now words.now level)) }
{
    tell(writer, format, words)?;
    tell_begun_at(writer, format, catalogue, entries, level)
}

// What stands before the last of so many further ones.
fn before_last(more: usize) -> &'static str
    ensures { result.now ≡ before_last more }
{
    if more == 3 { ", " } else { ", .., " }
}

// The last of so many further ones, where it isn't the third statement.
fn tell_last<W: Sink>(
    writer: &mut W,
    format: Format,
    catalogue: &Catalogue,
    entries: &[Entry],
    more: usize,
) -> Result<(), DeviceFault>
    ensures { Writes (W.state writer.old) (W.state writer.new) result
        (spelled format (last_text catalogue.now entries.now more)) }
{
    if more == 2 {
        tell_nothing(writer, format)
    } else {
        let words = before_last(more);
        tell_begun_after(writer, format, words.as_bytes(), catalogue, entries, more)
    }
}

// The third statement, where there is one, and the last.
#[tactic(auto, using(crate::proofs::SpelledLemmas::spelled_then))]
fn tell_third<W: Sink>(
    writer: &mut W,
    format: Format,
    catalogue: &Catalogue,
    entries: &[Entry],
    more: usize,
) -> Result<(), DeviceFault>
    ensures { Writes (W.state writer.old) (W.state writer.new) result
        (spelled format (third_text catalogue.now entries.now more)) }
{
    if more == 1 {
        return tell_nothing(writer, format);
    }
    tell_begun_after(writer, format, b", ", catalogue, entries, 2)?;
    tell_last(writer, format, catalogue, entries, more)
}

// Those after the first.
#[tactic(auto, using(crate::proofs::SpelledLemmas::spelled_then))]
fn tell_further<W: Sink>(
    writer: &mut W,
    format: Format,
    catalogue: &Catalogue,
    entries: &[Entry],
    more: usize,
) -> Result<(), DeviceFault>
    ensures { Writes (W.state writer.old) (W.state writer.new) result
        (spelled format (further_text catalogue.now entries.now more)) }
{
    if more == 0 {
        return tell_nothing(writer, format);
    }
    tell_begun_after(writer, format, b", ", catalogue, entries, 1)?;
    tell_third(writer, format, catalogue, entries, more)
}

// The statements that have begun and not ended.
#[tactic(auto, using(crate::proofs::SpelledLemmas::spelled_then))]
fn tell_way<W: Sink>(
    writer: &mut W,
    format: Format,
    catalogue: &Catalogue,
    entries: &[Entry],
    depth: usize,
) -> Result<(), DeviceFault>
    ensures { Writes (W.state writer.old) (W.state writer.new) result
        (spelled format (way_text catalogue.now entries.now depth)) }
{
    if depth == 0 {
        return tell_nothing(writer, format);
    }
    tell_begun_after(writer, format, b": ", catalogue, entries, 0)?;
    tell_further(writer, format, catalogue, entries, depth - 1)
}

// ---- what was counted

fn used_after(used: u64, entry: &Entry) -> u64
    ensures { result ≡ used_after used entry.now }
{
    match entry {
        Entry::Changed(changes) => used.saturating_add(changes.len() as u64),
        Entry::Began(_) => used.saturating_add(1),
        _ => used,
    }
}

// How many row changes and statements there were.
fn used(entries: &[Entry]) -> u64
    ensures { result ≡ used_from 1 entries.now }
{
    let mut rest = entries;
    let mut used = 1u64;
    while let Some((entry, others)) = rest.split_first() {
        used = used_after(used, entry);
        rest = others;
    }
    used
}

// ---- the limit

/// A limit of depth or of row changes.
#[derive(Clone, Copy)]
pub enum Limit {
    Depth,
    Changes,
    Transaction,
}

/// The limit for which a statement is refused.
pub fn limit_of(cause: &Cause) -> Option<Limit>
    ensures { result ≡ limit_of cause.now }
{
    match cause {
        Cause::DepthLimit(_) => Some(Limit::Depth),
        Cause::TooManyChanges => Some(Limit::Changes),
        Cause::TransactionTooLarge => Some(Limit::Transaction),
        _ => None,
    }
}

// One deeper.
fn deeper(depth: usize) -> u128
    ensures { result ≡ counted depth 1 }
{
    depth.saturating_add(1) as u128
}

// Two numbers between these words.
#[tactic(auto, using(crate::proofs::SpelledLemmas::spelled_then))]
fn tell_most<W: Sink>(
    writer: &mut W,
    format: Format,
    before: &[u8],
    asked: u128,
    between: &[u8],
    most: u128,
    after: &[u8],
) -> Result<(), DeviceFault>
    ensures { Writes (W.state writer.old) (W.state writer.new) result
        (spelled format ((before.now ++ decimal asked) ++ (between.now ++ (decimal most ++ after.now)))) }
{
    tell_number_after(writer, format, before, asked)?;
    tell_number_between(writer, format, between, most, after)
}

fn tell_depth<W: Sink>(writer: &mut W, format: Format, depth: usize) -> Result<(), DeviceFault>
    ensures { Writes (W.state writer.old) (W.state writer.new) result
        (spelled format (depth_words depth)) }
{
    tell_most(
        writer,
        format,
        b"depth ",
        deeper(depth),
        b", and ",
        depth as u128,
        b" is the most",
    )
}

fn used_so_far(entries: &[Entry]) -> u128
    ensures { result ≡ used_from 1 entries.now }
{
    u128::from(used(entries))
}

fn most_in_a_statement(limits: Limits) -> u128
    ensures { result ≡ limits.changes }
{
    u128::from(limits.changes())
}

fn tell_used<W: Sink>(
    writer: &mut W,
    format: Format,
    limits: Limits,
    entries: &[Entry],
) -> Result<(), DeviceFault>
    ensures { Writes (W.state writer.old) (W.state writer.new) result
        (spelled format (used_words limits.changes entries.now)) }
{
    tell_most(
        writer,
        format,
        b"counted so far ",
        used_so_far(entries),
        b", ",
        most_in_a_statement(limits),
        b" is the most, and this or the next row changes are too many",
    )
}

fn most_in_a_transaction() -> u128
    ensures { result ≡ most_changes_in_a_transaction }
{
    u128::from(MOST_CHANGES_IN_A_TRANSACTION)
}

fn tell_transaction<W: Sink>(writer: &mut W, format: Format) -> Result<(), DeviceFault>
    ensures { Writes (W.state writer.old) (W.state writer.new) result (spelled format transaction_words) }
{
    tell_number_between(
        writer,
        format,
        b"a transaction has at most ",
        most_in_a_transaction(),
        b" row changes",
    )
}

// Which limit, and what was counted.
fn tell_words<W: Sink>(
    writer: &mut W,
    format: Format,
    limits: Limits,
    entries: &[Entry],
    depth: usize,
    limit: Limit,
) -> Result<(), DeviceFault>
    ensures { Writes (W.state writer.old) (W.state writer.new) result
        (spelled format (limit_words limits entries.now depth limit)) }
{
    match limit {
        Limit::Depth => tell_depth(writer, format, depth),
        Limit::Changes => tell_used(writer, format, limits, entries),
        Limit::Transaction => tell_transaction(writer, format),
    }
}

/// Writes which limit a statement with this account is refused for, what was counted, and the way that led there.
#[tactic(auto, using(crate::proofs::SpelledLemmas::spelled_then), unfolding(crate::specs::Ways::limit_text))]
pub fn tell_limit<W: Sink>(
    writer: &mut W,
    format: Format,
    catalogue: &Catalogue,
    limits: Limits,
    entries: &[Entry],
    limit: Limit,
) -> Result<(), DeviceFault>
    ensures { Writes (W.state writer.old) (W.state writer.new) result
        (spelled format (limit_text catalogue.now limits entries.now limit)) }
{
    let depth = depth_of(entries);
    tell_words(writer, format, limits, entries, depth, limit)?;
    tell_way(writer, format, catalogue, entries, depth)
}

// ---- in words

#[tactic(auto, unfolding(crate::specs::Spelled::spelled))]
fn write_limit<W: Sink>(
    sink: &mut W,
    catalogue: &Catalogue,
    limits: Limits,
    entries: &[Entry],
    limit: Limit,
) -> Result<(), DeviceFault>
    ensures { Writes (W.state sink.old) (W.state sink.new) result
        (limit_text catalogue.now limits entries.now limit) }
{
    tell_limit(sink, Format::Words, catalogue, limits, entries, limit)
}

#[tactic(auto, using(crate::proofs::WriteLemmas::writes_then))]
fn write_line<W: Sink>(
    sink: &mut W,
    catalogue: &Catalogue,
    limits: Limits,
    entries: &[Entry],
    limit: Limit,
) -> Result<(), DeviceFault>
    ensures { Writes (W.state sink.old) (W.state sink.new) result
        (codes "  " ++ (limit_text catalogue.now limits entries.now limit ++ codes "\n")) }
{
    write_all(sink, b"  ")?;
    write_limit(sink, catalogue, limits, entries, limit)?;
    write_all(sink, b"\n")
}

fn write_line_of<W: Sink>(
    sink: &mut W,
    catalogue: &Catalogue,
    limits: Limits,
    entries: &[Entry],
    limit: Option<Limit>,
) -> Result<(), DeviceFault>
    ensures { Writes (W.state sink.old) (W.state sink.new) result
        (elim limit [ Some l ↦ codes "  " ++ (limit_text catalogue.now limits entries.now l ++ codes "\n") | None ↦ [] ]) }
{
    match limit {
        Some(limit) => write_line(sink, catalogue, limits, entries, limit),
        None => write_nothing(sink),
    }
}

/// The line of a statement that is refused for a limit.
pub fn write_limit_line<W: Sink>(
    sink: &mut W,
    catalogue: &Catalogue,
    limits: Limits,
    entries: &[Entry],
    outcome: &Result<Answer, Refusal>,
) -> Result<(), DeviceFault>
    ensures { Writes (W.state sink.old) (W.state sink.new) result
        (limit_line catalogue.now limits entries.now outcome.now) }
{
    match outcome {
        Ok(_) => write_nothing(sink),
        Err(refusal) => write_line_of(sink, catalogue, limits, entries, limit_of(&refusal.cause)),
    }
}
