/// Rows of `check`.
pub const ROWS: &[u8] = b"
# ---- checks
# a file is missing
run check
> usage: word 1
ends 2
# a word too many
run check a.o a.o
> usage: word 2
ends 2
# a name that is not UTF-8
run check \xff
> usage: word 1
ends 2
# a file that is not there
run check gone.o
> absent gone.o
ends 5
files 0
# a load that fails
run check a.o
> read fault a.o
ends 6
sink 0
# a put that fails
run check a.o
ends 7
# a unit, its headers and its symbols
run check a.o
> units 1 headers 2 excluded 0 symbols 7
ends 0
object little x.o
# no entries
run check x.o
> units 0 headers 0 excluded 0 symbols 0
ends 0
object big x.o 64:a.c 24:f:F(0,1) a0:p:p(0,1) 44.1: 82:h.h 82:g.h a2: 80:v:(1,1) 80: a2: 84:i.c 05:_f 64:b.c 64:
# all symbols are counted, those of the body too, and no other marks
run check x.o
> units 2 headers 2 excluded 0 symbols 3
ends 0
object little x.o 80:t:t1=-1;
# stabs that are no units
run check x.o
> refused x.o 50 0 0
ends 3
";
