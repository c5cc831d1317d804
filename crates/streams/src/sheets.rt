// A sheet: bytes with text at their front, of which so many are used. Text is put behind it; where it has no room nothing changes.
ghost use Rattle.std.specs.Prelude.{◌≡◌, ◌∷◌, [], length, replicate, nat_abs};
ghost use Rattle.std.proofs.Common.{ap};
ghost use Rattle.numbers.specs.Sign.{is_neg};
ghost use Rattle.lent.specs.Line.{has_room};
ghost use Rattle.written.specs.Parts.{signed_text};
ghost use Rattle.streams.specs.Sheet.{Sheet as Written, sheet, sheet_of, loan, loan_at, cleared, text_on, put_on};

use std::marker::Model;
use written::Writable;

// So many bytes, and how many of them are used.
#[derive(Drop)]
pub struct Sheet<const N: usize> {
    pub bytes: [u8; N],
    pub used: usize,
}

// A number by sign and magnitude.
#[derive(Clone, Copy)]
struct Signed {
    minus: bool,
    magnitude: u64,
}

impl<const N: usize> Model for Sheet<N> {
    ghost use Rattle.streams.specs.Sheet.{Sheet as Written, sheet};

    ghost Value = { Written };

    ghost view = { λ s. sheet s.bytes s.used };
}

impl<const N: usize> Sheet<N> {
    // Without text.
    pub fn new() -> Sheet<N>
        ensures { result ≡ sheet (replicate N 0) 0 }
    {
        Sheet {
            bytes: [0; N],
            used: 0,
        }
    }

    // The text that it has.
    pub fn text(&self) -> &[u8]
        ensures { result.now ≡ text_on self.now }
    {
        let bytes = &self.bytes[..];
        &bytes[..self.used.min(N)]
    }

    // Have `need` bytes more room?
    pub fn has_room(&self, need: usize) -> bool
        ensures { result ≡ has_room (length self.now.bytes) self.now.used need }
    {
        lent::room(N, self.used, need)
    }

    // Without text again.
    pub fn clear(&mut self)
        ensures { self.new ≡ sheet self.old.bytes 0 }
    {
        self.used = 0;
    }

    // A text.
    pub fn put_text(&mut self, text: &[u8])
        ensures { self.new ≡ put_on self.old text.now }
    {
        self.put(&text);
    }

    // A byte.
    pub fn put_byte(&mut self, b: u8)
        ensures { self.new ≡ put_on self.old (b ∷ []) }
    {
        self.put_text(&[b]);
    }

    // A text that can be laid into a line.
    pub fn put<T: Writable>(&mut self, text: &T)
        ensures { self.new ≡ put_on self.old (T.text text.now) }
    {
        let used = self.used;
        let need = text.length();
        if lent::room(N, used, need) {
            let bytes = &mut self.bytes[..];
            text.put(&mut bytes[used..]);
            self.used = used + need;
        }
    }

    // A number by sign and magnitude, in decimal digits.
    pub fn put_signed(&mut self, minus: bool, m: u64)
        ensures { self.new ≡ put_on self.old (signed_text minus m) }
    {
        self.put(&Signed {
            minus,
            magnitude: m,
        });
    }

    // A signed number, in decimal digits.
    pub fn put_number(&mut self, x: i64)
        ensures { self.new ≡ put_on self.old (signed_text (is_neg x) (nat_abs x)) }
    {
        self.put_signed(x < 0, x.unsigned_abs());
    }
}

// What text can be put on: a sheet, or lent bytes.
pub trait Page {
    ghost seen: { Self → Written };

    // Have `need` bytes more room?
    fn has_room(&self, need: usize) -> bool
        ensures { result ≡ has_room (length (seen self.now).bytes) (seen self.now).used need };

    // Without text again.
    fn clear(&mut self)
        ensures { seen self.new ≡ cleared (seen self.old) };

    // A text that can be laid into a line.
    fn put<T: Writable>(&mut self, text: &T)
        ensures { seen self.new ≡ put_on (seen self.old) (T.text text.now) };

    // what is seen of it is all of it
    ghost whole: { (x y : Self) → seen x ≡ seen y → x ≡ y };

    // A text.
    final fn put_text(&mut self, text: &[u8])
        ensures { seen self.new ≡ put_on (seen self.old) text.now }
    {
        self.put(&text);
    }

    // A byte.
    final fn put_byte(&mut self, b: u8)
        ensures { seen self.new ≡ put_on (seen self.old) (b ∷ []) }
    {
        self.put_text(&[b]);
    }

    // A number by sign and magnitude, in decimal digits.
    final fn put_signed(&mut self, minus: bool, m: u64)
        ensures { seen self.new ≡ put_on (seen self.old) (signed_text minus m) }
    {
        self.put(&Signed {
            minus,
            magnitude: m,
        });
    }

    // A signed number, in decimal digits.
    final fn put_number(&mut self, x: i64)
        ensures { seen self.new ≡ put_on (seen self.old) (signed_text (is_neg x) (nat_abs x)) }
    {
        self.put_signed(x < 0, x.unsigned_abs());
    }
}

impl<const N: usize> Page for Sheet<N> {
    ghost seen = { λ s. s };

    ghost whole = { λ x y e. e };

    fn has_room(&self, need: usize) -> bool {
        self.has_room(need)
    }

    fn clear(&mut self) {
        self.used = 0;
    }

    fn put<T: Writable>(&mut self, text: &T) {
        self.put(text);
    }
}

// Lent bytes with text at their front, and how many of them are used.
#[derive(Drop)]
pub struct Lent<'a> {
    pub bytes: &'a mut [u8],
    pub used: usize,
}

impl Page for Lent<'_> {
    ghost seen = { λ s. sheet_of (loan s.bytes.ref_ptr.0 s.bytes.ref_ptr.1 s.bytes.ghost_name) s.bytes.now s.used };

    ghost whole = { λ x y e. ap (λ s. record { bytes = record { ref_ptr = (loan_at s.lender 0, loan_at s.lender 1); ghost_name = loan_at s.lender 2; now = s.bytes }; used = s.used }) e };

    fn has_room(&self, need: usize) -> bool {
        lent::room(self.bytes.len(), self.used, need)
    }

    fn clear(&mut self) {
        self.used = 0;
    }

    fn put<T: Writable>(&mut self, text: &T) {
        let used = self.used;
        let need = text.length();
        if lent::room(self.bytes.len(), used, need) {
            text.put(&mut self.bytes[used..]);
            self.used = used + need;
        }
    }
}

impl Writable for Signed {
    ghost text = { λ number. signed_text number.minus number.magnitude };

    fn length(&self) -> usize {
        written::signed_length(self.minus, self.magnitude)
    }

    fn put(&self, part: &mut [u8]) {
        written::put_signed(part, self.minus, self.magnitude);
    }
}
