// A text while it is read, one token of a kind after the other. Mostly a token stands right at the place that is looked at, and then
// nothing else is asked.
ghost use Rattle.std.specs.Prelude.{◌≡◌, true, ◌<◌, length, OnErr};
ghost use Rattle.grammar.specs.Kind as K;
ghost use Rattle.grammar.specs.Token.{one_of};
ghost use Rattle.grammar.specs.inner.Scanner.{signs, token_at, Spans};
ghost use Rattle.text.specs.inner.Kinds.{number_of_kind, is_kind};
ghost use Rattle.text.specs.inner.Recursive.{told_token, refused, told_step, told_next, unexpected_at, is_at, expect_at, next_at};

use crate::kind::{Kind, Token};
use crate::token;
use table::Question;

// The question that got a no, and the place of the token it was asked at.
#[derive(Clone, Copy)]
pub struct Refusal {
    // The place comes first: behind one byte of a question, what the Ok of a `Result` holds would be copied in odd parts.
    pub at: usize,
    pub question: Question,
}

impl Refusal {
    pub fn new(question: Question, at: usize) -> Refusal
        ensures { result ≡ record { question = question; at = at } }
    {
        Refusal { question, at }
    }
}

// A token that the grammar does not allow here: malformed, or another.
#[tactic(auto, unfolding(crate::specs::inner::Recursive::unexpected_at))]
pub fn unexpected(k: Token) -> Refusal
    ensures { refused result ≡ unexpected_at (told_token k) }
{
    let question = if k.kind == Kind::Malformed {
        Question::BadToken
    } else {
        Question::Misplaced
    };
    Refusal::new(question, k.start)
}

// A text, and the place to go on at. After a refusal no more is read, but where a sign or a dot was only looked for.
#[derive(Clone, Copy)]
pub struct Cursor<'a> {
    pub text: &'a [u8],
    pub at: usize,
}

impl Cursor<'_> {
    // The token that comes next.
    pub fn token(&self) -> Token
        ensures is { told_token result ≡ token_at self.now.text.now self.now.at }
        ensures spans { Spans self.now.text.now (told_token result) }
    {
        token::token_at(self.text, self.at)
    }

    // Whether the byte b stands right at p.
    fn stands_at(&self, p: usize, b: u8) -> bool
        ensures is { result ≡ is_at self.now.text.now p b }
        ensures inside { result ≡ true → p < length self.now.text.now }
    {
        self.text.get(p) == Some(&b)
    }

    // Passes over a token of one kind.
    #[tactic(auto, unfolding(crate::specs::inner::Recursive::expect_at, crate::specs::inner::Recursive::passed))]
    fn expect(&mut self, kind: Kind) -> Result<(), Refusal>
        requires { is_kind kind ≡ true }
        ensures same { self.new.text ≡ self.old.text }
        ensures is { told_step result self.new.at ≡ expect_at self.old.text.now self.old.at (number_of_kind kind) }
        ensures stays { OnErr result (self.new ≡ self.old) }
    {
        let k = self.token();
        if k.kind != kind {
            return Err(unexpected(k));
        }
        self.at = k.end;
        Ok(())
    }

    // The same of a sign.
    #[tactic(auto, using(crate::proofs::laws::ExpectAt::sign_passed))]
    pub fn expect_sign(&mut self, sign: u8) -> Result<(), Refusal>
        requires { one_of signs sign ≡ true }
        ensures same { self.new.text ≡ self.old.text }
        ensures is { told_step result self.new.at ≡ expect_at self.old.text.now self.old.at sign }
        ensures stays { OnErr result (self.new ≡ self.old) }
    {
        if self.stands_at(self.at, sign) {
            self.at += 1;
            return Ok(());
        }
        self.expect(Kind::Sign(sign))
    }

    // Of one dot.
    #[tactic(auto, using(crate::proofs::laws::ExpectAt::dot_passed))]
    pub fn expect_dot(&mut self) -> Result<(), Refusal>
        ensures same { self.new.text ≡ self.old.text }
        ensures is { told_step result self.new.at ≡ expect_at self.old.text.now self.old.at (K.of ".") }
        ensures stays { OnErr result (self.new ≡ self.old) }
    {
        let p = self.at;
        if self.stands_at(p, b'.') && !self.stands_at(p + 1, b'.') {
            self.at += 1;
            return Ok(());
        }
        self.expect(Kind::Dot)
    }

    // Of two dots.
    #[tactic(auto, using(crate::proofs::laws::ExpectAt::dots_passed))]
    pub fn expect_dots(&mut self) -> Result<(), Refusal>
        ensures same { self.new.text ≡ self.old.text }
        ensures is { told_step result self.new.at ≡ expect_at self.old.text.now self.old.at K.dots }
    {
        let p = self.at;
        if self.stands_at(p, b'.') && self.stands_at(p + 1, b'.') && !self.stands_at(p + 2, b'.') {
            self.at += 2;
            return Ok(());
        }
        self.expect(Kind::Dots)
    }

    // Passes over the sign that closes a list, or over a comma, after which another part follows.
    #[tactic(auto, using(crate::proofs::laws::ExpectAt::last_passed, crate::proofs::laws::ExpectAt::comma_passed), unfolding(crate::specs::inner::Recursive::next_at))]
    pub fn next_part(&mut self, close: u8) -> Result<bool, Refusal>
        requires { one_of signs close ≡ true }
        ensures same { self.new.text ≡ self.old.text }
        ensures is { told_next result self.new.at ≡ next_at self.old.text.now self.old.at close }
    {
        let more = if self.stands_at(self.at, close) {
            false
        } else if self.stands_at(self.at, b',') {
            true
        } else {
            return self.next_token(close);
        };
        self.at += 1;
        Ok(more)
    }

    // The same of the token that comes next, past spaces.
    #[tactic(auto, unfolding(crate::specs::inner::Recursive::next_at, crate::specs::inner::Recursive::next_of))]
    fn next_token(&mut self, close: u8) -> Result<bool, Refusal>
        requires { one_of signs close ≡ true }
        ensures same { self.new.text ≡ self.old.text }
        ensures is { told_next result self.new.at ≡ next_at self.old.text.now self.old.at close }
    {
        let k = self.token();
        let more = match k.kind {
            Kind::Sign(b) if b == close => false,
            Kind::Sign(b',') => true,
            _ => return Err(unexpected(k)),
        };
        self.at = k.end;
        Ok(more)
    }
}
