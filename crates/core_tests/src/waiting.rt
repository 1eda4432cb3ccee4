// Plays in which a process waits for another.
use crate::calls::{Answer, Call};
use crate::plays::{FIRST_STEPS, Happens, Play, expect_plays};
use crate::starts::{ADD, BOOK, NOTE, PAY, PURCHASE, SALE, SHIP, TAKE};
use machine_model::Rule;
use process_core::{Aborted, Cause, Refusal, Work};

const WAITING: [Play; 7] = [
    Play {
        name: "two that don't conflict take turns",
        texts: &[PURCHASE, b"process b c u add 1 7 r v ship 1 1 end"],
        opening: FIRST_STEPS,
        turns: &[
            (Call::Admit(2), Answer::Piece(3, 2, 1, Work::Forward)),
            (Call::Done(3), Answer::Effected(5)),
            (Call::Admit(1), Answer::Piece(4, 1, 1, Work::Forward)),
            (Call::Done(4), Answer::Effected(6)),
            (Call::Admit(2), Answer::Piece(5, 2, 0, Work::End)),
            (Call::Done(5), Answer::Effected(7)),
            (Call::Admit(1), Answer::Piece(6, 1, 0, Work::End)),
            (Call::Done(6), Answer::Effected(8)),
        ],
        events: &[
            Happens::Start(1),
            Happens::Start(2),
            Happens::Do(1, 0, ADD, 1),
            Happens::Do(2, 0, ADD, 1),
            Happens::Do(2, 1, SHIP, 1),
            Happens::Do(1, 1, PAY, 1),
            Happens::End(2),
            Happens::End(1),
        ],
        began: &[(1, None), (2, None)],
    },
    Play {
        name: "a sale is paid once the purchase on which it builds has ended",
        texts: &[PURCHASE, SALE],
        opening: FIRST_STEPS,
        turns: &[
            (Call::Admit(2), Answer::Blocked(1, 0, 0, Rule::A3)),
            (Call::Admit(1), Answer::Piece(3, 1, 1, Work::Forward)),
            (Call::Done(3), Answer::Effected(5)),
            (Call::Admit(1), Answer::Piece(4, 1, 0, Work::End)),
            (Call::Done(4), Answer::Effected(6)),
            (Call::Admit(2), Answer::Piece(5, 2, 1, Work::Forward)),
        ],
        events: &[
            Happens::Start(1),
            Happens::Start(2),
            Happens::Do(1, 0, ADD, 1),
            Happens::Do(2, 0, TAKE, 1),
            Happens::Do(1, 1, PAY, 1),
            Happens::End(1),
        ],
        began: &[(1, None), (2, None)],
    },
    Play {
        name: "a running pivot reserves what it will owe, until it is refused",
        texts: &[
            b"process a p x pay 1 5 r y take 1 0 end",
            b"process b c u add 1 7 end",
        ],
        opening: &[],
        turns: &[
            (Call::Admit(1), Answer::Piece(1, 1, 0, Work::Forward)),
            (Call::Admit(2), Answer::Blocked(1, 1, 0, Rule::A1)),
            (Call::Refused(1), Answer::Refused(Refusal::RollBack)),
            (Call::Admit(2), Answer::Piece(2, 2, 0, Work::Forward)),
            (Call::Admit(1), Answer::Piece(3, 1, 0, Work::End)),
        ],
        events: &[Happens::Start(1), Happens::Start(2)],
        began: &[(1, Some((4, Cause::Refused(0)))), (2, None)],
    },
    Play {
        name: "a step that would close a circle waits",
        texts: &[
            b"process a c x add 1 5 c s note 1 1 end",
            b"process b c u note 2 2 c v take 1 1 end",
        ],
        opening: FIRST_STEPS,
        turns: &[
            (Call::Admit(2), Answer::Piece(3, 2, 1, Work::Forward)),
            (Call::Admit(1), Answer::Blocked(2, 0, 1, Rule::A2)),
            (Call::Done(3), Answer::Effected(5)),
        ],
        events: &[
            Happens::Start(1),
            Happens::Start(2),
            Happens::Do(1, 0, ADD, 1),
            Happens::Do(2, 0, NOTE, 2),
            Happens::Do(2, 1, TAKE, 1),
        ],
        began: &[(1, None), (2, None)],
    },
    Play {
        name: "steps of two that conflict don't run at once",
        texts: &[PURCHASE, SALE],
        opening: &[],
        turns: &[
            (Call::Admit(1), Answer::Piece(1, 1, 0, Work::Forward)),
            (Call::Admit(2), Answer::Blocked(1, 0, 0, Rule::A0)),
        ],
        events: &[Happens::Start(1), Happens::Start(2)],
        began: &[(1, None), (2, None)],
    },
    Play {
        name: "bookings wait for those on their key alone",
        texts: &[
            b"process a c x book 7 1 end",
            b"process b c u book 8 1 end",
            b"process c c w book 7 1 end",
        ],
        opening: &[],
        turns: &[
            (Call::Admit(1), Answer::Piece(1, 1, 0, Work::Forward)),
            (Call::Admit(2), Answer::Piece(2, 2, 0, Work::Forward)),
            (Call::Admit(3), Answer::Blocked(1, 0, 0, Rule::A0)),
            (Call::Done(2), Answer::Effected(4)),
            (Call::Done(1), Answer::Effected(5)),
            (Call::Admit(3), Answer::Piece(3, 3, 0, Work::Forward)),
            (Call::Done(3), Answer::Effected(6)),
            (Call::Abort(1), Answer::Aborted(Aborted::Ok)),
            (Call::Admit(2), Answer::Piece(4, 2, 0, Work::End)),
            (Call::Admit(1), Answer::Blocked(3, 0, 0, Rule::A5)),
        ],
        events: &[
            Happens::Start(1),
            Happens::Start(2),
            Happens::Start(3),
            Happens::Do(2, 0, BOOK, 8),
            Happens::Do(1, 0, BOOK, 7),
            Happens::Do(3, 0, BOOK, 7),
        ],
        began: &[
            (1, Some((10, Cause::Abort))),
            (2, None),
            (3, Some((10, Cause::Cascade(1)))),
        ],
    },
    Play {
        name: "a pivot waits where it would owe what conflicts",
        texts: &[
            b"process a c x add 1 5 end",
            b"process b p u pay 1 1 r v take 1 1 end",
        ],
        opening: &[],
        turns: &[
            (Call::Admit(1), Answer::Piece(1, 1, 0, Work::Forward)),
            (Call::Done(1), Answer::Effected(3)),
            (Call::Admit(2), Answer::Blocked(1, 0, 1, Rule::A4)),
            (Call::Admit(1), Answer::Piece(2, 1, 0, Work::End)),
            (Call::Done(2), Answer::Effected(4)),
            (Call::Admit(2), Answer::Piece(3, 2, 0, Work::Forward)),
        ],
        events: &[
            Happens::Start(1),
            Happens::Start(2),
            Happens::Do(1, 0, ADD, 1),
            Happens::End(1),
        ],
        began: &[(1, None), (2, None)],
    },
];

#[test]
fn processes_wait_by_the_rules(rt: HostRuntime) {
    expect_plays(&rt, rt.alloc(), &WAITING);
}
