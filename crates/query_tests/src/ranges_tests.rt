//! Header ranges of entries worked by hand: what is theirs, which are candidates, and their instances where each is kept.

use crate::table::all_hold;

const RANGES: &[u8] = b"\
# two headers of one name: the second has the next instance
world 300 64=u.c 80=int:t(0,1)=r(0,1);-2147483648;2147483647; 82=a.h 80=a:t(1,1)=(0,1) a2 82=h.h 80=h:t(2,1)=*(1,1) a2 64 64=v.c 80=int:t(0,1)=r(0,1);-2147483648;2147483647; 82=b.h 80=b:t(1,1)=*(0,1) a2 82=h.h 80=h:t(2,1)=*(1,1) a2 64
ranges
  0 1 a.h 000002a8 yes 0 000002a8 1 0
  shape a:t(,1)=(,1)
  0 2 h.h 000002d9 yes 1 000002d9 2 1
  shape h:t(,1)=*(,1)
  1 1 b.h 000002d3 yes 2 000002d3 1 0
  shape b:t(,1)=*(,1)
  1 2 h.h 000002d9 yes 3 000002da 2 1
  shape h:t(,1)=*(,1)
# a header in a header has its own symbols; a line in it keeps it from being a candidate, and not the other
world 10 64=u.c 82=o.h 80=o:t(1,1)=(0,1) 82=n.h 44 a2 80=p:T(1,2)=s4v:(2,7),0,32;; a2
ranges
  0 1 o.h 0000080e yes 0 0000080e 1 0 1 2
  shape o:t(,1)=(,1)
  shape p:T(,2)=s4v:(,7),0,32;;
  0 2 n.h 00000000 no 1 00000000
# plain numbers stay in the shape and in the sum, and are no numbers of files
world 10 64=u.c 82=n.h 80=n:t7=*(12,34) a2
ranges
  0 1 n.h 0000029e yes 0 0000029e 12
  shape n:t7=*(,34)
# a variable, and a type symbol of another code, are no type symbols of a header
world 10 64=u.c 82=v.h 80=v:(0,1) a2 82=g.h 20=G:t(0,1) a2 82=t.h 80=T:Tt1 a2
ranges
  0 1 v.h 0000015e no 0 0000015e 0
  shape v:(,1)
  0 2 g.h 000001a3 no 1 000001a3 0
  shape G:t(,1)
  0 3 t.h 00000187 yes 2 00000187
  shape T:Tt1
# a string that goes on is one symbol; an empty one is none
world 10 64=u.c 82=c.h 80=c:t(1,\\ 80=1) a2 82=e.h 80= a2
ranges
  0 1 c.h 000001bf yes 0 000001bf 1
  shape c:t(,1)
  0 2 e.h 00000000 no 1 00000000
# a unit that has a name and shape twice: none of them is a candidate, in any unit
world 30 64=u.c 82=h.h 80=h:t(1,1)=(0,1) a2 82=h.h 80=h:t(2,1)=(0,1) a2 64@10 64@10=v.c 82=h.h 80=h:t(1,1)=(0,1) a2
ranges
  0 1 h.h 000002af no 0 000002af 1 0
  shape h:t(,1)=(,1)
  0 2 h.h 000002af no 1 000002b0 2 0
  shape h:t(,1)=(,1)
  1 1 h.h 000002af no 2 000002b1 1 0
  shape h:t(,1)=(,1)
# no headers; and the faults of units
world 10 64=u.c 80=int:t(0,1)=r(0,1);-2147483648;2147483647;
ranges
world 10 80=x:t1
ranges
  refused 50 0 0
world 10 64=u.c 82=h.h 80=h:q a2
ranges
  refused 40 2 2
";

#[test]
fn ranges_answer(rt: HostRuntime) {
    all_hold(&rt, rt.alloc(), RANGES);
}
