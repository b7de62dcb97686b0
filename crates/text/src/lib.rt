// The text of the bench's listing: its first line, the line of a longer input, and the line of one step, by value.
#![tactic(auto)]

ghost use Rattle.std.specs.Prelude.{◌≡◌, [], ◌∷◌, ◌+◌, ◌≤◌, ◌<◌, length};
ghost use Rattle.text.specs.Text.{dec, first_panel, second_panel, panel_text, result_text, line_text, first_line, too_long, text_of, Appended};

// The panel numbers that a line shows: in the places of a and b, or of a alone.
#[derive(Clone, Copy, Debug, PartialEq, Eq)]
pub enum Panels {
    Neither,
    One(u8),
    Two(u8, u8),
}

impl Panels {
    #[tactic(auto, unfolding(crate::specs::Text::first_panel))]
    fn first(self) -> Option<u8>
        ensures { result ≡ first_panel self }
    {
        match self {
            Panels::Neither => None,
            Panels::One(a) => Some(a),
            Panels::Two(a, _) => Some(a),
        }
    }

    #[tactic(auto, unfolding(crate::specs::Text::second_panel))]
    fn second(self) -> Option<u8>
        ensures { result ≡ second_panel self }
    {
        match self {
            Panels::Neither => None,
            Panels::One(_) => None,
            Panels::Two(_, b) => Some(b),
        }
    }
}

// What finished: its letter's byte, and its number.
#[derive(Clone, Copy, Debug, PartialEq, Eq)]
pub struct Noted {
    pub letter: u8,
    pub number: u32,
}

// A line of the listing, field by field.
#[derive(Clone, Copy, Debug, PartialEq, Eq)]
pub struct Line {
    pub step: u32,
    pub kind: u8,
    pub panels: Panels,
    pub answer: u8,
    pub result: Option<Noted>,
}

// The first length bytes; those past them are zero.
#[derive(Clone, Copy)]
pub struct Text {
    pub length: usize,
    pub bytes: [u8; 40],
}

pub fn first_line() -> [u8; 28]
    ensures { result ≡ first_line }
{
    *b"step kind a b answer result\n"
}

pub fn too_long() -> [u8; 9]
    ensures { result ≡ too_long }
{
    *b"too long\n"
}

// A text with more behind it.
impl Text {
    const EMPTY: Text = Text {
        length: 0,
        bytes: [0; 40],
    };

    #[tactic(auto, unfolding(crate::specs::Text::appended))]
    fn push(&mut self, b: u8)
        requires { self.old.length < 40 }
        ensures { Appended self.old (b ∷ []) 1 self.new }
    {
        self.bytes[self.length] = b;
        self.length += 1;
    }

    // The digits in front of the last, and then the last.
    fn push_number(&mut self, n: u32)
        requires { self.old.length + length (dec n) ≤ 40 }
        ensures { Appended self.old (dec n) 10 self.new }
    {
        if 10 <= n {
            self.push_number(n / 10);
        }
        self.push(b'0' + (n % 10) as u8);
    }

    // A space and a number, or `-` in its place.
    fn push_panel(&mut self, panel: Option<u8>)
        requires { self.old.length + 4 ≤ 40 }
        ensures { Appended self.old (32 ∷ panel_text panel) 4 self.new }
    {
        self.push(b' ');
        match panel {
            Some(n) => self.push_number(u32::from(n)),
            None => self.push(b'-'),
        }
    }

    fn push_result(&mut self, finished: Option<Noted>)
        requires { self.old.length + 12 ≤ 40 }
        ensures { Appended self.old (32 ∷ result_text finished) 12 self.new }
    {
        self.push(b' ');
        match finished {
            Some(r) => {
                self.push(r.letter);
                self.push_number(r.number);
            }
            None => self.push(b'-'),
        }
    }
}

pub fn line_text(l: Line) -> Text
    ensures { (result ≡ text_of (line_text l)) × (result.length ≤ 39) × (result.length ≤ length (dec l.step) + 29) }
{
    let mut text = Text::EMPTY;
    text.push_number(l.step);
    text.push_panel(Some(l.kind));
    text.push_panel(l.panels.first());
    text.push_panel(l.panels.second());
    text.push_panel(Some(l.answer));
    text.push_result(l.result);
    text.push(b'\n');
    text
}
