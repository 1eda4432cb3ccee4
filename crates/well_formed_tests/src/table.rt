// 146 processes and what is wrong first with each, worked out by `verdicts.py`, beside `src`, by trying all outcomes of play.

/// In each line a process, in which a letter is a step of that kind, `b` one that is both compensatable and retriable, and brackets
/// are a choice; and then its verdict. Steps are numbered from 0.
pub const TABLE: &str = "\
c good
p good
r good
cc good
pc stuck 1 done refused
rp stuck 1 refused
crp stuck 2 done refused
prrr good
cp(cpr|rr) good
p(r|r) unreachable 2
p(cc|c|r) good
(c|c) good
(r|c) unreachable 1
((c|c)|c) good
((c|r)|c) unreachable 2
(c(p|r)|c) good
c(p(c|r)|r) good
p(c(c|c)|r) good
p(c|c|c) stuck 3 done refused refused refused
p((c|r)|r) unreachable 3
p(c(pc|r)|r) stuck 3 done done done refused
r(c|p|r) good
p(rc|r) stuck 2 done refused
p(crc|r) stuck 3 done done refused
c((((((((((((((((c|c)|c)|c)|c)|c)|c)|c)|c)|c)|c)|c)|c)|c)|c)|c)|c) good
p((((((((((((((((c|r)|r)|r)|r)|r)|r)|r)|r)|r)|r)|r)|r)|r)|r)|r)|r) unreachable 3
p(c(c(c|c)|c)|r) good
p(p(p(p|r)|r)|r) good
cccc(cc|cc|cc) good
(p(c|r)|p(c|c)) stuck 5 refused done refused refused
c(cc|c) good
c(p|p(c(pr|pr)|c(cc|p|p))) stuck 8 done refused done refused refused
(p(rc(cp|rp)|rp(cr|c))|r) stuck 2 done refused
cr(c(p(rc|pp)|(p|cp))|cc) stuck 5 done done done refused
(rc(rr(pp|pr)|(c|c))|c) stuck 1 refused
c(c|c(c|(r|pc))) unreachable 5
c(((p|pr)|(c|cp|c))|c) good
p((cp(cc|rp)|(cr|rc))|pc) stuck 6 done done done refused refused
p(c|pc(cp(r|p)|(p|p))) stuck 2 done refused refused
(cr|c(p(p|c)|c(pp|p))) stuck 5 refused done done refused refused
cr((p(pc|r|c)|p)|c) stuck 4 done done done refused
c(pr|rc) stuck 4 done refused refused
cc(rc|r) stuck 3 done done refused
pp(p|c((c|c)|cr(cp|pc|p))) stuck 1 done refused
rc(p(r|cc)|r|cp) stuck 1 refused
cp(r|c(cr|cc(c|pr))) unreachable 3
p(rr(p(p|c)|cc(rc|p))|rc) stuck 5 done done refused refused
(c(c(pp|c|c)|pc)|cp) stuck 3 done done done refused
(c|c((p|p)|(cc|cr))) good
c(r((r|cp)|cr)|rp) unreachable 3
(c((r|p)|cr(c|pr|cr))|cp) unreachable 2
r(c|(cr|(cc|r))) good
c(c|(cc|c)) good
((cp(c|pr)|cr(cc|pr))|c) stuck 3 done done refused refused
(pc|((c|pc)|r(p|r)|r(p|rp))) stuck 1 done refused
r(c(cr|c(pr|c|c))|p) stuck 9 refused refused
c(r|(cr(cc|c)|(p|p))) unreachable 2
c(c|c(c(pp|c)|cp|rr)) stuck 5 done refused done done done refused
(c((c|c|c)|c)|r) good
rc(r((p|c)|c(r|c|cc))|cr) stuck 1 refused
c(pc((cr|cp)|r(p|c))|cp|r) stuck 2 done done refused
(cr(c|cc(c|cp|r))|p) stuck 3 done refused refused
r(((c|r|p)|(c|c)|rr)|((cr|r)|cr)) unreachable 3
c(r|cp(c|cc(c|cp|cc))) unreachable 2
cc(pc|rc((p|p)|r(c|r))) stuck 3 done done done refused
(cp((c|p)|(cr|r))|c) good
(cc|rc(rc|(c|c))) stuck 3 refused refused
cp((c|p)|rc) stuck 5 done done refused refused refused
(cc|(pc|cp(cc|p))) stuck 3 refused done refused
r(cc|cp(c|cc(r|cc))) stuck 3 refused refused
(rp|c|cp((cc|c)|p(p|cr))) stuck 1 refused
c(c|c(pp|(r|p))) stuck 4 done refused done done refused
cp(pc(p|c)|c) stuck 3 done done done refused
c(r|cc(c|rp(cc|c)|p)|c) unreachable 2
c(pc|p(cc|c)) stuck 2 done done refused
(((c|r)|r(c|c)|(cr|rp|c))|c) unreachable 2
c((c(c|rr)|pc(p|p))|cc) stuck 6 done refused done refused
(pr|c(pc(r|c)|p(p|c))) stuck 4 refused done done refused
(cc(r|cc)|cr((c|r)|r(rc|r))) unreachable 3
(cr|c(p(r|p)|c(pc|c)|cp)) unreachable 5
c(r|(rc(cc|p)|pc(cr|r))) unreachable 2
c(r((cr|cc)|rr)|p) unreachable 8
(p|c((p|cr)|r|pc(r|cc))) unreachable 6
(rr|r(rc|r(p|cr|p))) unreachable 2
(c|r(r(r|c)|(p|p|rc))) unreachable 4
pr(cp((r|cp)|(r|p))|c) unreachable 5
r(rr|pc(r|c(cp|p|c)|c)) unreachable 3
c(r(c(r|p|cr)|r(r|p|r))|cc) unreachable 4
(p|(p|cc(c|c))) good
(c(c(c|p)|cc(c|cp|r))|((p|c)|c)) good
rr(c(c(r|c)|rp)|cc) unreachable 5
cc(((c|c)|(p|p|c))|c) good
c(r|p((r|r)|pp)) unreachable 2
c(cr|cc(c|cc(cc|p))) good
(rr|(cc(c|c)|(p|r|cc))) unreachable 2
p((c(cp|c)|c(r|r))|pc) unreachable 7
pr(r(p(r|c)|p)|p) unreachable 5
(c(c(r|c)|pc(r|cr))|c|r) unreachable 3
cc(cc|(cp|pr|c)) good
(c(c|r)|c) good
bpb good
p(b|r) unreachable 2
p(bc|bc) stuck 4 done refused refused
p(bc|r) good
b good
bpbrb good
p(c|b) good
p(b(c|c)|r) good
p(b(c|b)|r) unreachable 4
p(b(b|c)|r) unreachable 3
(b|c) unreachable 1
(bc|c) good
(b(c|bc)|c) good
(br|c) unreachable 2
(bp|c) good
p(c|bbc) stuck 4 done refused refused
bc(bbr|c) unreachable 5
p(b(bc|bp)|b) good
p(c(b|c)|b) unreachable 3
bc(bc|bpbc) stuck 7 done refused done refused
p(b(c(bc|bbc)|bc)|b) good
p(bb(c|(bc|bp(c|r)))|b(c|b)) good
b(bc|b(c|bb)) good
(c(c|cb)|cb(bc|bc)) good
p(c(cb(bc|bcb)|c)|b) good
bb(c(cc|b(cp|b))|b) good
bb((c|c|b(p|c))|cb) good
bcb((c|bc)|b) good
pbb(bc|b(bc|b)) good
bc(c|bc|c(b(bcc|cbc)|b)) good
b(c|bb((bbc|cbc|cbb)|c)) good
bp(rb|c) unreachable 4
pbbb((b(b|c)|r)|b) unreachable 6
bpbb(((c|bb)|(b|rbb))|bc) unreachable 7
(cb|rb|pb((b|bc)|b)) unreachable 4
p(bc((bb|p)|b(c|b)|bp)|bc) unreachable 5
cpbb(b|c) unreachable 5
bpbb(b|(cc|c(bbb|b|cc))) unreachable 5
pbbb(bb(cb|bc)|c|cb) stuck 11 done refused refused refused refused
cprr(cc|c(b(ccp|cbc)|b)|c) stuck 15 done done refused refused refused
bpbb(c|bb(c|b(rbc|ccr))) stuck 11 done refused refused refused
pb(cc|cb(c|bc)|cc) stuck 9 done refused refused refused
pbb(pb|(cc|bc)) stuck 8 done refused refused refused
p(c|cb|p(c(ccb|cb)|c)) stuck 4 done refused refused refused
p(bc|c|c(p(bcb|c)|b)) stuck 4 done refused refused refused
bpb((c|cb)|c) stuck 6 done refused refused refused
";
