//! Where spaces and line ends go.
ghost use Rattle.std.specs.Prelude.{◌≡◌};
ghost use Rattle.iv_write.specs.Layouts.{after, caller_gap, class_of, comma_gap, depth_after, ending, gap, gap_after, is_among_elements, is_block, is_table, place_after, place_of_end, place_of_table, start, statement_gap};

use iv_lex::TokenKind;

/// What the layout sees of a word.
#[derive(Clone, Copy, Debug)]
pub enum Class {
    /// No word: the beginning of a text.
    Nothing,
    Open,
    Close,
    Comma,
    Semicolon,
    Period,
    /// A word that its parenthesis follows without a space: VARCHAR or COUNT.
    Caller,
    Create,
    Table,
    Atomic,
    End,
    Other,
}

/// What a word stands in.
#[derive(Clone, Copy, Debug)]
pub enum Place {
    Statement,
    /// CREATE TABLE.
    Table,
    /// BEGIN ATOMIC .. END.
    Block,
}

/// What the place of the next word depends on.
#[derive(Clone, Copy, Debug)]
pub struct Layout {
    pub last: Class,
    pub place: Place,
    /// How many parentheses are open.
    pub depth: u64,
}

/// The layout where a text begins.
pub fn start() -> Layout
    ensures { result ≡ start }
{
    Layout {
        last: Class::Nothing,
        place: Place::Statement,
        depth: 0,
    }
}

/// What the layout sees of a symbol or a reserved word.
pub fn class_of(kind: TokenKind) -> Class
    ensures { result ≡ class_of kind }
{
    match kind {
        TokenKind::LeftParenthesis => Class::Open,
        TokenKind::RightParenthesis => Class::Close,
        TokenKind::Comma => Class::Comma,
        TokenKind::Semicolon => Class::Semicolon,
        TokenKind::Period => Class::Period,
        TokenKind::Count | TokenKind::Varchar => Class::Caller,
        TokenKind::Create => Class::Create,
        TokenKind::Table => Class::Table,
        TokenKind::Atomic => Class::Atomic,
        TokenKind::End => Class::End,
        _ => Class::Other,
    }
}

fn is_table(place: Place) -> bool
    ensures { result ≡ is_table place }
{
    match place {
        Place::Table => true,
        _ => false,
    }
}

fn is_block(place: Place) -> bool
    ensures { result ≡ is_block place }
{
    match place {
        Place::Block => true,
        _ => false,
    }
}

// Among the elements of a CREATE TABLE, and in none of their parentheses.
fn is_among_elements(layout: Layout) -> bool
    ensures { result ≡ is_among_elements layout }
{
    is_table(layout.place) && layout.depth == 1
}

fn comma_gap(layout: Layout, next: Class) -> &'static str
    ensures { result.now ≡ comma_gap layout next }
{
    if is_among_elements(layout) {
        return "\n    ";
    }
    match next {
        Class::Open if layout.depth == 0 => "\n    ",
        _ => " ",
    }
}

fn caller_gap(next: Class) -> &'static str
    ensures { result.now ≡ caller_gap next }
{
    match next {
        Class::Open => "",
        _ => " ",
    }
}

fn statement_gap(next: Class) -> &'static str
    ensures { result.now ≡ statement_gap next }
{
    match next {
        Class::End => "",
        _ => "    ",
    }
}

fn gap_after(layout: Layout, last: Class, next: Class) -> &'static str
    ensures { result.now ≡ gap_after layout last next }
{
    match last {
        Class::Nothing | Class::Period => "",
        Class::Open => {
            if is_among_elements(layout) {
                "\n    "
            } else {
                ""
            }
        }
        Class::Comma => comma_gap(layout, next),
        Class::Semicolon => {
            if is_block(layout.place) {
                statement_gap(next)
            } else {
                ""
            }
        }
        Class::Caller => caller_gap(next),
        Class::Atomic => "\n    ",
        _ => " ",
    }
}

/// What stands before the next word.
pub fn gap(layout: Layout, next: Class) -> &'static str
    ensures { result.now ≡ gap layout next }
{
    match next {
        Class::Comma | Class::Semicolon | Class::Period => "",
        Class::Close => { if is_among_elements(layout) { "\n" } else { "" } }
        _ => gap_after(layout, layout.last, next),
    }
}

fn place_of_table(last: Class, place: Place) -> Place
    ensures { result ≡ place_of_table last place }
{
    match last {
        Class::Create => Place::Table,
        _ => place,
    }
}

fn place_of_end(place: Place) -> Place
    ensures { result ≡ place_of_end place }
{
    match place {
        Place::Block => Place::Block,
        _ => Place::Statement,
    }
}

fn place_after(layout: Layout, class: Class) -> Place
    ensures { result ≡ place_after layout class }
{
    match class {
        Class::Table => place_of_table(layout.last, layout.place),
        Class::Atomic => Place::Block,
        Class::End => Place::Statement,
        Class::Semicolon => place_of_end(layout.place),
        _ => layout.place,
    }
}

fn depth_after(depth: u64, class: Class) -> u64
    ensures { result ≡ depth_after depth class }
{
    match class {
        Class::Open => depth.saturating_add(1),
        Class::Close => depth.saturating_sub(1),
        _ => depth,
    }
}

/// The layout after a word.
pub fn after(layout: Layout, class: Class) -> Layout
    ensures { result ≡ after layout class }
{
    Layout {
        last: class,
        place: place_after(layout, class),
        depth: depth_after(layout.depth, class),
    }
}

/// What stands after a word: a semicolon ends its line.
pub fn ending(class: Class) -> &'static str
    ensures { result.now ≡ ending class }
{
    match class {
        Class::Semicolon => "\n",
        _ => "",
    }
}
