//! A Boolean file as it is written, which may turn out too long.
ghost use Rattle.std.specs.Prelude.{◌≡◌, ℕ, ◌-◌, ◌^◌, ◌<◌, ◌≤◌, List, [], ◌∷◌, ◌++◌, length};
ghost use Rattle.definitions.specs.Bits.{bits as bits_of};
ghost use Rattle.definitions.specs.Systems.{System};
ghost use Rattle.definitions.specs.Truth.{Instance as Meant};
ghost use Rattle.bits.specs.declared.writer.BitWriter.{BitWriter as Writer};

use bits::BitWriter;
use firstcome::FirstCome;
use system::instance::Instance;

/// The kinds of tokens.
#[derive(Clone, Copy, PartialEq, Eq, Debug)]
pub(crate) enum Token {
    False = 0,
    True = 1,
    All = 2,
    Any = 3,
    Variable = 4,
}

/// An instance comes for which there is no place, or a walk does not find what every accepted file has.
#[derive(Clone, Copy, PartialEq, Eq, Debug)]
pub struct Unfinished;

/// What is written so far, which says nothing once it is too long, and the instances that came.
#[derive(Drop)]
pub struct Draft<'a, 'b> {
    pub list: FirstCome<'a, Instance>,
    pub writer: BitWriter<'b>,
    too_long: bool,
}

impl<'a, 'b> Draft<'a, 'b> {
    ghost use Rattle.expansion.specs.Drafts.{Drafted, Drafts, Fine, StandsFor, Puts, Closes, token_number};

    pub(crate) fn new(places: &'a mut [Instance], bytes: &'b mut [u8]) -> Draft<'a, 'b>
        ensures fresh { (s : System) → length places.old ≤ 4096 → length bytes.old ≤ 65536 → Drafted s result.writer (length places.old) [] [] result }
        ensures front { result.writer.at ≡ 0 }
        ensures same { result.writer.bytes.now ≡ bytes.old }
    {
        Draft {
            list: FirstCome::new(places),
            writer: BitWriter { bytes, at: 0 },
            too_long: false,
        }
    }

    // One field more.
    pub(crate) fn put(&mut self, value: u32, width: u32)
        ensures { width ≤ 32 → value < 2 ^ width → Puts (bits_of width value) self.old self.new }
    {
        if !self.too_long {
            self.too_long = self.writer.put(value, width).is_err();
        }
    }

    // The start comes, and the place of the variable count is kept.
    pub(crate) fn begin(&mut self, start: Instance) -> Result<(), Unfinished>
        ensures { (s : System) (x : Meant) → Fine s x → StandsFor start x → Drafts s (x ∷ []) (λ f. bits_of 12 0) self.old self.new result }
    {
        self.list.come(start).ok_or(Unfinished)?;
        self.put(0, 12);
        Ok(())
    }

    // A token without parts.
    pub(crate) fn put_token(&mut self, token: Token)
        ensures { Puts (bits_of 3 (token_number token)) self.old self.new }
    {
        self.put(token as u32, 3);
    }

    // The token of an all or an any over so many tokens.
    pub(crate) fn put_parts(&mut self, token: Token, count: u32)
        ensures { count ≤ 256 → Puts (bits_of 3 (token_number token) ++ bits_of 8 (count - 1)) self.old self.new }
    {
        self.put_token(token);
        self.put(count.saturating_sub(1), 8);
    }

    // The variable of an instance, which comes.
    pub(crate) fn put_variable(&mut self, instance: Instance) -> Result<(), Unfinished>
        ensures { (s : System) (x : Meant) → Fine s x → StandsFor instance x → Drafts s (x ∷ []) (λ f. bits_of 3 4 ++ bits_of 12 (f x)) self.old self.new result }
    {
        let number = self.list.come(instance).ok_or(Unfinished)?;
        self.put_token(Token::Variable);
        // A list has at most 4,096 places, so nothing is cut off here.
        self.put(number.min(4095) as u32, 12);
        Ok(())
    }

    // Ends the file: its length with the variable count in front, or none where it is too long.
    pub(crate) fn close(&mut self) -> Option<usize>
        ensures closes { (s : System) (first : Writer) (places : ℕ) (ns : List Meant) (rest : List ℕ) → Drafted s first places ns (bits_of 12 0 ++ rest) self.old → first.at ≡ 0 → 1 ≤ length ns → Closes first (bits_of 12 (length ns - 1) ++ rest) self.new result }
        ensures lists { self.new.list ≡ self.old.list }
    {
        let variables = self.list.len;
        if self.too_long || variables == 0 || variables > 4096 {
            return None;
        }
        let end = self.writer.at;
        self.writer.at = 0;
        self.writer.put(variables as u32 - 1, 12).ok()?;
        self.writer.at = end;
        Some(self.writer.close())
    }
}
