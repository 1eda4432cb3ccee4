// What is proved of the books of stores.
ghost use Rattle.std.specs.Prelude.{◌≡◌, true};
ghost use Rattle.subsystem_store.specs.Bodies.{is_amount};
ghost use Rattle.subsystem_store.specs.Laws.{BooksAreReadBack, EitherIsReadBack, FitsItsBytes, EmptyIsGood, PreparedIsGood};
ghost use Rattle.subsystem_store.specs.Laws.{CommittedIsGood, RolledBackIsGood, ReadIsGood};

use crate::Effect;

/// Every book that a store may have is read back as that book, so a crash within a call leaves the store before or after it.
pub fn books_are_read_back()
    ensures file { BooksAreReadBack }
    ensures either { EitherIsReadBack }
{}

/// The books that a store may have are those of its calls: each call, from the first on, ends with one of them.
pub fn calls_make_good_books()
    ensures create { EmptyIsGood }
    ensures prepare { PreparedIsGood }
    ensures commit { CommittedIsGood }
    ensures roll_back { RolledBackIsGood }
    ensures read { ReadIsGood }
{}

/// An effect fits its bytes where its amount is within its limit.
pub fn effects_fit_their_bytes(effect: Effect)
    requires { is_amount effect.call.amount ≡ true }
    ensures { FitsItsBytes effect }
{}
