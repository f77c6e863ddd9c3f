//! The ranges of the forms of a text, determined by its brackets.
ghost use Rattle.std.specs.Prelude.{◌≡◌, ◌+◌, ◌<◌, ◌≤◌, ◌^◌, length, IfSome};
ghost use Rattle.fault_search.specs.Forms.{after_byte, after_word, state_at, end_of, form_at};

/// What surrounds a byte.
#[derive(Clone, Copy, Debug, PartialEq, Eq)]
pub(crate) enum Within {
    Words,
    Comment,
    Quotes,
}

/// What is known of a text before a byte.
#[derive(Clone, Copy, Debug, PartialEq, Eq)]
pub(crate) struct State {
    /// The place of the byte.
    at: usize,
    /// How many brackets are open.
    depth: usize,
    /// The place of the bracket that began the last form.
    first: usize,
    within: Within,
}

/// The bytes of a text from `first` up to but not including `past`.
#[derive(Clone, Copy, Debug, PartialEq, Eq)]
pub struct Span {
    pub first: usize,
    pub past: usize,
}

fn after_word(state: State, byte: u8) -> State
    requires at { state.at < 2 ^ 63 }
    requires depth { state.depth < 2 ^ 63 }
    ensures { result ≡ after_word state byte }
{
    let at = state.at + 1;
    match byte {
        b'(' => State {
            at,
            depth: state.depth + 1,
            first: if state.depth == 0 {
                state.at
            } else {
                state.first
            },
            within: Within::Words,
        },
        b')' => State {
            at,
            depth: state.depth.saturating_sub(1),
            first: state.first,
            within: Within::Words,
        },
        b';' => State {
            at,
            within: Within::Comment,
            ..state
        },
        b'|' => State {
            at,
            within: Within::Quotes,
            ..state
        },
        _ => State { at, ..state },
    }
}

fn after_byte(state: State, byte: u8) -> State
    requires at { state.at < 2 ^ 63 }
    requires depth { state.depth < 2 ^ 63 }
    ensures { result ≡ after_byte state byte }
{
    match state.within {
        Within::Words => after_word(state, byte),
        Within::Comment => State {
            at: state.at + 1,
            within: if byte == b'\n' {
                Within::Words
            } else {
                Within::Comment
            },
            ..state
        },
        Within::Quotes => State {
            at: state.at + 1,
            within: if byte == b'|' {
                Within::Words
            } else {
                Within::Quotes
            },
            ..state
        },
    }
}

fn state_at(text: &[u8], at: usize) -> State
    requires { at ≤ length text.now }
    ensures state { result ≡ state_at text.now at }
    ensures place { result.at ≡ at }
    ensures depth { result.depth ≤ at }
    ensures first { 0 < result.depth → result.first < at }
{
    let mut state = State {
        at: 0,
        depth: 0,
        first: 0,
        within: Within::Words,
    };
    for byte in &text[..at] {
        state = after_byte(state, *byte);
    }
    state
}

// the end of the form that is open before these bytes
fn end_of(state: State, rest: &[u8]) -> usize
    requires at { state.at + length rest.now < 2 ^ 63 }
    requires depth { state.depth ≤ state.at }
    ensures end { result ≡ end_of state rest.now }
    ensures after { state.at ≤ result }
    ensures within { result ≤ state.at + length rest.now }
{
    let mut state = state;
    for byte in rest {
        state = after_byte(state, *byte);
        if state.depth == 0 {
            return state.at;
        }
    }
    state.at
}

/// The form that is open at a place of a text, or None if none is. A form that is not closed ends at the end of the
/// text. Takes time in proportion to the text up to the end of the form.
pub fn form_at(text: &[u8], at: usize) -> Option<Span>
    requires { at ≤ length text.now }
    ensures form { result ≡ form_at text.now at }
    ensures begins { IfSome result (λ form. form.first < form.past) }
    ensures within { IfSome result (λ form. form.past ≤ length text.now) }
{
    let state = state_at(text, at);
    if state.depth == 0 {
        return None;
    }
    Some(Span {
        first: state.first,
        past: end_of(state, &text[at..]),
    })
}
