// Writes words, numbers, fractions and fields into a text, one behind another.
ghost use Rattle.std.specs.Prelude.{◌≡◌};
ghost use Rattle.text.specs.Lines.{decimal, field, fraction, fraction_field};
ghost use Rattle.text.specs.Writer.{HasRoom, Wrote, Begins};

use fraction::Fraction;

// A text, and the place up to which it is written. `write!` to a slice promises no bytes, and its error has no place here: the contracts ask for room.
#[derive(Drop)]
pub struct Writer<'a> {
    pub text: &'a mut [u8],
    pub at: usize,
}

impl<'a> Writer<'a> {
    pub fn new(text: &'a mut [u8]) -> Writer<'a>
        ensures { Begins text.entry result }
    {
        Writer { text, at: 0 }
    }

    pub fn word(&mut self, word: &[u8])
        requires { HasRoom word.now self.old }
        ensures { Wrote word.now self.old self.new }
    {
        let end = self.at + word.len();
        self.text[self.at..end].copy_from_slice(word);
        self.at = end;
    }

    pub fn number(&mut self, n: u64)
        requires { HasRoom (decimal n) self.old }
        ensures { Wrote (decimal n) self.old self.new }
    {
        let mut digits = [0; 20];
        let count = io::decimal(n, &mut digits);
        self.word(&digits[..count]);
    }

    #[tactic(auto, unfolding(crate::specs::Lines::fraction))]
    pub fn fraction(&mut self, f: Fraction)
        requires { HasRoom (fraction f) self.old }
        ensures { Wrote (fraction f) self.old self.new }
    {
        self.number(f.num);
        self.word(b"/");
        self.number(f.den);
    }

    // A word, and a number behind it.
    #[tactic(auto, unfolding(crate::specs::Lines::field))]
    pub fn field(&mut self, word: &[u8], n: u64)
        requires { HasRoom (field word.now n) self.old }
        ensures { Wrote (field word.now n) self.old self.new }
    {
        self.word(word);
        self.number(n);
    }

    // A word, and a fraction behind it.
    #[tactic(auto, unfolding(crate::specs::Lines::fraction_field))]
    pub fn fraction_field(&mut self, word: &[u8], f: Fraction)
        requires { HasRoom (fraction_field word.now f) self.old }
        ensures { Wrote (fraction_field word.now f) self.old self.new }
    {
        self.word(word);
        self.fraction(f);
    }
}
