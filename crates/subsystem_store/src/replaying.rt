// The records of a file are taken into an account.
ghost use Rattle.std.specs.Prelude.{◌≡◌, ◌≢◌, ◌<◌, ◌≤◌, ◌++◌, ◌∷◌, [], ℕ, List, length, Ok, Err, IfOk, IfErr, OnOk, true};
ghost use Rattle.subsystem_store.specs.Order.{placed, after_prepared, after_committed, after_body, read_bodies, no_book, commits};
ghost use Rattle.subsystem_store.specs.Bodies.{record_of, AreBodiesOf};
ghost use Rattle.subsystem_store.specs.Answers.{RefusedAs};
ghost use Rattle.subsystem_store.specs.Opened.{Fits, book_of};

use crate::account::Account;
use crate::bodies::record_of;
use crate::effect::Record;
use crate::{Effect, StoreError, StoreRefused};
use gate_log::Body;
use resource_box::Resource;

impl<B: Resource> Account<B> {
    /// Takes the records of these bodies, in order.
    pub fn replay(self, bodies: &[Body]) -> Result<Self, StoreRefused<B>>
        requires fits { Fits B.Resource self }
        requires few { length bodies.now ≤ 65536 }
        requires unused { (self.book ≡ []) × (self.doubt ≡ []) }
        ensures read { IfOk result (λ a. read_bodies self.kind 1 bodies.now no_book ≡ Ok (book_of a)) }
        ensures fits { IfOk result (λ a. Fits B.Resource a) }
        ensures kind { IfOk result (λ a. a.kind ≡ self.kind) }
        ensures bodies { IfOk result (λ a. AreBodiesOf a.book a.doubt bodies.now) }
        ensures refused { IfErr result
            (λ r. RefusedAs (read_bodies self.kind 1 bodies.now no_book) r.why × (r.why ≢ StoreError.DiskFault)) }
        ensures cleared { IfErr result (λ r. ((B.meaning r.resource).items ≡ []) × (B.sort r.resource ≡ B.sort self.resource)) }
    {
        let mut account = self;
        let mut rest = bodies;
        let mut number = 1;
        'bodies: while let Some((body, after)) = rest.split_first() {
            if let Err(why) = account.take(number, body.bytes()) {
                return Err(StoreRefused {
                    resource: account.cleared(),
                    why,
                });
            }
            rest = after;
            number += 1;
        }
        Ok(account)
    }

    /// Takes the record of one body, which is the one of this number.
    fn take(&mut self, number: u32, body: &[u8]) -> Result<(), StoreError>
        requires fits { Fits B.Resource self.old }
        ensures read { OnOk result
            (after_body self.old.kind number (book_of self.old) (record_of body.now) ≡ Ok (book_of self.new)) }
        ensures bodies { OnOk result ((bodies : List (List ℕ)) → AreBodiesOf self.old.book self.old.doubt bodies
            → AreBodiesOf self.new.book self.new.doubt (bodies ++ body.now ∷ [])) }
        ensures refused { IfErr result
            (λ e. RefusedAs (after_body self.old.kind number (book_of self.old) (record_of body.now)) e
            × (e ≢ StoreError.DiskFault)) }
        ensures fits { Fits B.Resource self.new }
        ensures same { self.new.kind ≡ self.old.kind }
        ensures sort { B.sort self.new.resource ≡ B.sort self.old.resource }
    {
        match record_of(body) {
            None => Err(StoreError::BadRecord(number)),
            Some(Record::Prepared(effect)) => {
                self.take_prepared(number, effect)?;
                Ok(())
            }
            Some(Record::Committed(committed)) => {
                self.take_committed(number, committed)?;
                Ok(())
            }
        }
    }

    fn take_prepared(&mut self, number: u32, effect: Effect) -> Result<(), StoreError>
        requires fits { Fits B.Resource self.old }
        ensures ok { OnOk result
            ((placed number (after_prepared self.old.kind (book_of self.old) effect) ≡ Ok (book_of self.new))
            × (self.new.doubt ≡ self.old.doubt ++ effect ∷ []) × (self.new.book ≡ self.old.book)) }
        ensures refused { IfErr result
            (λ e. e ≢ StoreError.NoMemory → (e ≡ StoreError.BadBook number)
            × (placed number (after_prepared self.old.kind (book_of self.old) effect) ≡ Err (StoreError.BadBook number))) }
        ensures fits { Fits B.Resource self.new }
        ensures same { self.new.kind ≡ self.old.kind }
        ensures sort { B.sort self.new.resource ≡ B.sort self.old.resource }
    {
        if !self.is_in_place(&effect) {
            return Err(StoreError::BadBook(number));
        }
        match self.hold(effect) {
            Ok(()) => Ok(()),
            Err(_) => Err(StoreError::NoMemory),
        }
    }

    fn take_committed(&mut self, number: u32, committed: u32) -> Result<(), StoreError>
        requires fits { Fits B.Resource self.old }
        ensures ok { OnOk result
            ((placed number (after_committed self.old.book self.old.doubt committed) ≡ Ok (book_of self.new))
            × (commits self.old.doubt committed ≡ true) × (self.new.book ≡ self.old.book ++ self.old.doubt)
            × (self.new.doubt ≡ [])) }
        ensures refused { IfErr result
            (λ e. (e ≡ StoreError.BadBook number) ×
            (placed number (after_committed self.old.book self.old.doubt committed) ≡ Err (StoreError.BadBook number))) }
        ensures fits { Fits B.Resource self.new }
        ensures same { self.new.kind ≡ self.old.kind }
        ensures sort { B.sort self.new.resource ≡ B.sort self.old.resource }
    {
        if !self.is_due(committed) {
            return Err(StoreError::BadBook(number));
        }
        self.commit();
        Ok(())
    }
}
