// Plays in which processes go back, or another way.
use crate::calls::{Answer, Call};
use crate::plays::{FIRST_STEPS, Happens, Play, expect_plays};
use crate::starts::{ADD, PAY, PURCHASE, SALE, SHIP, TAKE};
use machine_model::Rule;
use process_core::{Aborted, Cause, Refusal, Work};

const CHOICE: &[u8] =
    b"process b p x pay 1 5 choose c y take 1 2 c z ship 1 1 or c m ship 2 1 or r t ship 3 1 done end";

const GOING_BACK: [Play; 7] = [
    Play {
        name: "a purchase that is called off takes the sale along, which goes back first",
        texts: &[PURCHASE, SALE],
        opening: FIRST_STEPS,
        turns: &[
            (Call::Abort(1), Answer::Aborted(Aborted::Ok)),
            (Call::Admit(1), Answer::Blocked(2, 0, 0, Rule::A5)),
            (Call::Next, Answer::Piece(3, 2, 0, Work::Undo)),
            (Call::Done(3), Answer::Effected(5)),
            (Call::Next, Answer::Piece(4, 1, 0, Work::Undo)),
            (Call::Done(4), Answer::Effected(6)),
            (Call::Next, Answer::Piece(5, 2, 0, Work::End)),
            (Call::Done(5), Answer::Effected(7)),
            (Call::Next, Answer::Piece(6, 1, 0, Work::End)),
            (Call::Done(6), Answer::Effected(8)),
            (Call::Next, Answer::AllEnded),
            (Call::Abort(1), Answer::Aborted(Aborted::Ended)),
        ],
        events: &[
            Happens::Start(1),
            Happens::Start(2),
            Happens::Do(1, 0, ADD, 1),
            Happens::Do(2, 0, TAKE, 1),
            Happens::Undo(2, 0, TAKE, 1),
            Happens::Undo(1, 0, ADD, 1),
            Happens::End(2),
            Happens::End(1),
        ],
        began: &[
            (1, Some((7, Cause::Abort))),
            (2, Some((7, Cause::Cascade(1)))),
        ],
    },
    Play {
        name: "who is dragged along behind its pivot goes the last way of its choice",
        texts: &[b"process a c w add 1 5 end", CHOICE],
        opening: &[],
        turns: &[
            (Call::Admit(2), Answer::Piece(1, 2, 0, Work::Forward)),
            (Call::Done(1), Answer::Effected(3)),
            (Call::Admit(1), Answer::Piece(2, 1, 0, Work::Forward)),
            (Call::Done(2), Answer::Effected(4)),
            (Call::Admit(2), Answer::Piece(3, 2, 1, Work::Forward)),
            (Call::Done(3), Answer::Effected(5)),
            (Call::Abort(1), Answer::Aborted(Aborted::Ok)),
            (Call::Next, Answer::Piece(4, 2, 1, Work::Undo)),
            (Call::Done(4), Answer::Effected(6)),
            (Call::Next, Answer::Piece(5, 1, 0, Work::Undo)),
            (Call::Done(5), Answer::Effected(7)),
            (Call::Next, Answer::Piece(6, 2, 4, Work::Forward)),
            (Call::Done(6), Answer::Effected(8)),
            (Call::Next, Answer::Piece(7, 1, 0, Work::End)),
            (Call::Done(7), Answer::Effected(9)),
            (Call::Next, Answer::Piece(8, 2, 0, Work::End)),
            (Call::Done(8), Answer::Effected(10)),
            (Call::Next, Answer::AllEnded),
        ],
        events: &[
            Happens::Start(1),
            Happens::Start(2),
            Happens::Do(2, 0, PAY, 1),
            Happens::Do(1, 0, ADD, 1),
            Happens::Do(2, 1, TAKE, 1),
            Happens::Undo(2, 1, TAKE, 1),
            Happens::Undo(1, 0, ADD, 1),
            Happens::Do(2, 4, SHIP, 3),
            Happens::End(1),
            Happens::End(2),
        ],
        began: &[
            (1, Some((9, Cause::Abort))),
            (2, Some((9, Cause::Cascade(1)))),
        ],
    },
    Play {
        name: "a piece whose process is called off is dropped, and takes no effect",
        texts: &[PURCHASE],
        opening: &[],
        turns: &[
            (Call::Admit(1), Answer::Piece(1, 1, 0, Work::Forward)),
            (Call::Admit(1), Answer::Running),
            (Call::Abort(1), Answer::Aborted(Aborted::Ok)),
            (Call::Abort(1), Answer::Aborted(Aborted::Already)),
            (Call::Done(1), Answer::Dropped(3)),
            (Call::Admit(1), Answer::Piece(2, 1, 0, Work::End)),
            (Call::Done(2), Answer::Effected(2)),
            (Call::Admit(9), Answer::Unknown),
            (Call::Admit(0), Answer::Unknown),
            (Call::Done(1), Answer::NoPiece),
            (Call::Abort(1), Answer::Aborted(Aborted::Ended)),
            (Call::Abort(2), Answer::Aborted(Aborted::Unknown)),
        ],
        events: &[Happens::Start(1), Happens::End(1)],
        began: &[(1, Some((3, Cause::Abort))), (2, None)],
    },
    Play {
        name: "a first step that is refused ends its process",
        texts: &[b"process a c x take 1 1 end"],
        opening: &[],
        turns: &[
            (Call::Admit(1), Answer::Piece(1, 1, 0, Work::Forward)),
            (Call::Refused(1), Answer::Refused(Refusal::RollBack)),
            (Call::Next, Answer::Piece(2, 1, 0, Work::End)),
            (Call::Done(2), Answer::Effected(2)),
            (Call::Next, Answer::AllEnded),
        ],
        events: &[Happens::Start(1), Happens::End(1)],
        began: &[(1, Some((3, Cause::Refused(0))))],
    },
    Play {
        name: "a way that is refused is followed by the next one",
        texts: &[b"process a c w add 1 5 end", CHOICE],
        opening: &[],
        turns: &[
            (Call::Admit(2), Answer::Piece(1, 2, 0, Work::Forward)),
            (Call::Done(1), Answer::Effected(3)),
            (Call::Admit(2), Answer::Piece(2, 2, 1, Work::Forward)),
            (Call::Refused(2), Answer::Refused(Refusal::Alternative)),
            (Call::Admit(2), Answer::Piece(3, 2, 3, Work::Forward)),
            (Call::Refused(3), Answer::Refused(Refusal::Alternative)),
            (Call::Admit(2), Answer::Piece(4, 2, 4, Work::Forward)),
            (Call::Refused(4), Answer::Refused(Refusal::Retry(1))),
            (Call::Admit(2), Answer::Again(5, 2, 4, Work::Forward, 1)),
            (Call::Refused(5), Answer::Refused(Refusal::Retry(2))),
            (Call::Admit(2), Answer::Again(6, 2, 4, Work::Forward, 2)),
            (Call::Refused(6), Answer::Refused(Refusal::Exhausted)),
            (Call::Admit(2), Answer::Exhausted(4)),
            (Call::Abort(2), Answer::Aborted(Aborted::Exhausted)),
        ],
        events: &[
            Happens::Start(1),
            Happens::Start(2),
            Happens::Do(2, 0, PAY, 1),
        ],
        began: &[(1, None), (2, None)],
    },
    Play {
        name: "what is dragged along by a refusal goes back too",
        texts: &[PURCHASE, SALE],
        opening: &[],
        turns: &[
            (Call::Admit(1), Answer::Piece(1, 1, 0, Work::Forward)),
            (Call::Done(1), Answer::Effected(3)),
            (Call::Admit(1), Answer::Piece(2, 1, 1, Work::Forward)),
            (Call::Admit(2), Answer::Piece(3, 2, 0, Work::Forward)),
            (Call::Refused(2), Answer::Refused(Refusal::RollBack)),
            (Call::Done(3), Answer::Dropped(7)),
            (Call::Admit(1), Answer::Piece(4, 1, 0, Work::Undo)),
        ],
        events: &[
            Happens::Start(1),
            Happens::Start(2),
            Happens::Do(1, 0, ADD, 1),
        ],
        began: &[
            (1, Some((7, Cause::Refused(1)))),
            (2, Some((7, Cause::Cascade(1)))),
        ],
    },
    Play {
        name: "all go back in the reverse of their joint order",
        texts: &[PURCHASE, SALE],
        opening: FIRST_STEPS,
        turns: &[
            (Call::CompleteAll, Answer::AllComplete),
            (Call::Abort(1), Answer::Aborted(Aborted::Already)),
            (Call::Admit(2), Answer::Piece(3, 2, 0, Work::Undo)),
            (Call::Done(3), Answer::Effected(5)),
            (Call::Admit(1), Answer::Piece(4, 1, 0, Work::Undo)),
            (Call::Done(4), Answer::Effected(6)),
            (Call::Admit(1), Answer::Piece(5, 1, 0, Work::End)),
            (Call::Refused(5), Answer::NoRefusal),
        ],
        events: &[
            Happens::Start(1),
            Happens::Start(2),
            Happens::Do(1, 0, ADD, 1),
            Happens::Do(2, 0, TAKE, 1),
            Happens::Undo(2, 0, TAKE, 1),
            Happens::Undo(1, 0, ADD, 1),
        ],
        began: &[
            (1, Some((7, Cause::Restart))),
            (2, Some((7, Cause::Restart))),
        ],
    },
];

#[test]
fn processes_go_back_by_the_rules(rt: HostRuntime) {
    expect_plays(&rt, rt.alloc(), &GOING_BACK);
}
