// Document 01, "Schedule text": the reader holds the schedule and how far it has read.
#![tactic(auto)]

ghost use Rattle.std.specs.Prelude.{◌≡◌};
ghost use Rattle.schedule.specs.Lines.{line_at, ended_at, end_at, next_at, place_in};

#[derive(Clone, Copy, Debug)]
pub struct Reader<'a> {
    pub text: &'a [u8],
    pub at: usize,
}

impl<'a> Reader<'a> {
    // A reader at the start of a schedule.
    pub fn new(text: &'a [u8]) -> Reader<'a>
        ensures { (result.text ≡ text.entry) × (result.at ≡ 0) }
    {
        Reader { text, at: 0 }
    }

    // The line that the reader stands at, without its LF: a part of the caller's own bytes.
    pub fn line(self) -> &'a [u8]
        ensures { (result.now ≡ line_at self.entry.text.now self.entry.at) × (result.ref_ptr ≡ place_in self.entry.text self.entry.at) }
    {
        schedule::line_at(self.text, self.at)
    }

    // Where that line ends: at its LF, or at the end of all.
    fn end(self) -> usize
        ensures { result ≡ end_at self.entry.text.now self.entry.at }
    {
        self.at.min(self.text.len()) + self.line().len()
    }

    // Whether a LF ends it.
    pub fn ended(self) -> bool
        ensures { result ≡ ended_at self.entry.text.now self.entry.at }
    {
        self.end() < self.text.len()
    }

    // The reader that stands behind that line and its LF.
    pub fn after(self) -> Reader<'a>
        ensures { (result.text ≡ self.entry.text) × (result.at ≡ next_at self.entry.text.now self.entry.at) }
    {
        Reader {
            at: (self.end() + 1).min(self.text.len()),
            ..self
        }
    }
}

// The first line from a place on: for callers that hold no reader.
pub fn first_line(text: &[u8], at: usize) -> &[u8]
    ensures { (result.now ≡ line_at text.now at) × (result.ref_ptr ≡ place_in text.entry at) }
{
    Reader { text, at }.line()
}
