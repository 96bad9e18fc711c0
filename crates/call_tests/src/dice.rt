//! Numbers that look random.
ghost use Rattle.std.specs.Prelude.{◌<◌, length};

/// Throws numbers that look random.
#[derive(Clone, Copy)]
pub struct Dice {
    pub state: u64,
}

impl Dice {
    /// A number below this one.
    pub fn roll(&mut self, sides: u64) -> u64
        requires { 0 < sides }
        ensures { result < sides }
    {
        self.state ^= self.state << 13;
        self.state ^= self.state >> 7;
        self.state ^= self.state << 17;
        self.state % sides
    }

    /// One of these.
    pub fn pick(&mut self, texts: &'static [&'static str]) -> &'static str
        requires { 0 < length texts.now }
    {
        let at = self.roll(texts.len() as u64);
        texts[at as usize]
    }
}
