ghost use Rattle.std.specs.Prelude.{◌≡◌, ◌∷◌, [], if◌then◌else◌};
ghost use Rattle.rx_units.specs.Cursor.{begins, move_on, rest};
ghost use Rattle.rx_units.specs.Pace.{IsMove};

use crate::{CodePoint, Reader, UnitSource};
use rx_base::{Counter, List};

/// The calls that move, with a counter to which one is added for each unit that they move over.
impl<'a, S: UnitSource> Reader<'a, S> {
    /// Moves one place on, or does nothing at the end.
    #[inline]
    pub fn advance_counted<C: Counter>(&mut self, steps: &mut C)
        ensures reader { self.new ≡ move_on 1 self.old }
        ensures steps { IsMove (C.count steps.old) (C.count steps.new) self.old self.new }
    {
        self.skip_counted(1, steps);
    }

    /// Moves n places on, or to the end where fewer are left.
    #[inline]
    pub fn skip_counted<C: Counter>(&mut self, count: usize, steps: &mut C)
        ensures reader { self.new ≡ move_on count self.old }
        ensures steps { IsMove (C.count steps.old) (C.count steps.new) self.old self.new }
    {
        steps.add(count.min(self.ahead().len()));
        self.skip(count);
    }

    /// Moves over the character where it stands at the place, and says whether it does.
    pub fn eat_counted<C: Counter>(&mut self, ch: char, steps: &mut C) -> bool
        ensures value { result ≡ begins (ch ∷ []) (rest self.old) }
        ensures reader { self.new ≡ (if result then move_on 1 self.old else self.old) }
        ensures steps { IsMove (C.count steps.old) (C.count steps.new) self.old self.new }
    {
        let place = self.checkpoint().0;
        let is_eaten = self.eat(ch);
        steps.add(self.checkpoint().0 - place);
        is_eaten
    }
}

/// The same for the calls of a reader of a list, which only callers need.
impl<'a> Reader<'a, List<CodePoint>> {
    /// Moves over both characters where they stand at the place one after the other, and says whether they do.
    /// For callers: no reader of these crates needs it.
    pub fn eat2_counted<C: Counter>(&mut self, ch: char, ch2: char, steps: &mut C) -> bool
        ensures value { result ≡ begins (ch ∷ ch2 ∷ []) (rest self.old) }
        ensures reader { self.new ≡ (if result then move_on 2 self.old else self.old) }
        ensures steps { IsMove (C.count steps.old) (C.count steps.new) self.old self.new }
    {
        let place = self.checkpoint().0;
        let are_eaten = self.eat2(ch, ch2);
        steps.add(self.checkpoint().0 - place);
        are_eaten
    }

    /// Moves over the three characters where they stand at the place one after the other, and says whether they do.
    /// For callers: no reader of these crates needs it.
    pub fn eat3_counted<C: Counter>(
        &mut self,
        ch: char,
        ch2: char,
        ch3: char,
        steps: &mut C,
    ) -> bool
        ensures value { result ≡ begins (ch ∷ ch2 ∷ ch3 ∷ []) (rest self.old) }
        ensures reader { self.new ≡ (if result then move_on 3 self.old else self.old) }
        ensures steps { IsMove (C.count steps.old) (C.count steps.new) self.old self.new }
    {
        let place = self.checkpoint().0;
        let are_eaten = self.eat3(ch, ch2, ch3);
        steps.add(self.checkpoint().0 - place);
        are_eaten
    }

    /// Moves over the four characters where they stand at the place one after the other, and says whether they do.
    /// For callers: no reader of these crates needs it.
    pub fn eat4_counted<C: Counter>(
        &mut self,
        ch: char,
        ch2: char,
        ch3: char,
        ch4: char,
        steps: &mut C,
    ) -> bool
        ensures value { result ≡ begins (ch ∷ ch2 ∷ ch3 ∷ ch4 ∷ []) (rest self.old) }
        ensures reader { self.new ≡ (if result then move_on 4 self.old else self.old) }
        ensures steps { IsMove (C.count steps.old) (C.count steps.new) self.old self.new }
    {
        let place = self.checkpoint().0;
        let are_eaten = self.eat4(ch, ch2, ch3, ch4);
        steps.add(self.checkpoint().0 - place);
        are_eaten
    }
}
