//! Answers: the one that a call gave, and the one that is wanted.

ghost use Rattle.std.specs.Prelude.{◌≡◌, ◌↔◌, IsTrue, string_bytes};

/// What a call gave.
#[derive(Drop)]
pub struct Answer {
    status: String,
    bytes: Vec<u8>,
}

impl Answer {
    /// A call's status, by its name, and the bytes that it wrote.
    pub fn new(status: String, bytes: Vec<u8>) -> Answer
        ensures status { result.status ≡ status }
        ensures bytes { result.bytes ≡ bytes }
    {
        Answer { status, bytes }
    }

    /// The status, by its name.
    pub fn status(&self) -> &str
        ensures { result.now ≡ string_bytes self.now.status }
    {
        self.status.as_str()
    }

    /// The bytes that it wrote.
    pub fn bytes(&self) -> &[u8]
        ensures { result.now ≡ self.now.bytes.items }
    {
        self.bytes.as_slice()
    }
}

/// The status and the bytes that are wanted.
#[derive(Clone, Copy)]
pub struct Wanted<'a> {
    pub status: &'a str,
    pub text: &'a str,
}

impl<'a> Wanted<'a> {
    /// A report, or the line of a refusal.
    pub fn by_text(text: &'a str) -> Wanted<'a> {
        let status = if text.starts_with("refused ") {
            "Refused"
        } else {
            "Ok"
        };
        Wanted { status, text }
    }

    /// Whether an answer is the wanted one.
    pub fn is(&self, answer: &Answer) -> bool
        ensures { IsTrue result ↔ ((string_bytes answer.now.status ≡ self.now.status.now) × (answer.now.bytes.items ≡ self.now.text.now)) }
    {
        answer.status() == self.status && answer.bytes() == self.text.as_bytes()
    }
}
