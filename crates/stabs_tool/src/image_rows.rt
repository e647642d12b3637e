/// Rows of queries and checks on images in which headers are excluded.
pub const ROWS: &[u8] = b"
# ---- excluded headers
object little x.o 64:w.c 80:int:t(0,1)=r(0,1);-1;1; 82@5:h.h 80:h:t(1,1)=*(0,1) a2: 64:x.c 80:char:t(0,1)=r(0,1);0;127; c2@5:h.h
# it has the symbols of its range, whose main source is now its own unit's
run query x.o type 1 h
> 2
> 0 t h *#1
> 1 t char r#1;0;127;
ends 0
# the range has them as they were
run query x.o type 0 h
> 2
> 0 t h *#1
> 1 t int r#1;-1;1;
ends 0
# it is a file of its unit
run query x.o files 1
> 0 x.c
> 1 h.h
ends 0
# its symbols are counted
run check x.o
> units 2 headers 2 excluded 1 symbols 4
ends 0
# no object of a link may have one
run link keep 0x0 out x.o
> refused x.o 55 7 0
ends 3
object big x.o 64:x.c 80:char:t(0,1)=r(0,1);0;127; c2@5:h.h 64:w.c 80:int:t(0,1)=r(0,1);-1;1; 82@5:h.h 80:h:t(1,1)=*(0,1) a2:
# before its range
run query x.o type 0 h
> 2
> 0 t h *#1
> 1 t char r#1;0;127;
ends 0
object little x.o 64:w.c 82@1:a.h 80:a:t(1,1)=r(1,1);0;1; a2: 82@2:h.h 80:h:t(2,1)=*(1,1) a2: 64:x.c c2@2:h.h 82@3:b.h 80:b:t(2,1)=r(2,1);0;2; a2: c2@1:a.h
# headers that a unit has in another order: a.h is its file 3
run query x.o type 1 h
> 2
> 0 t h *#1
> 1 t a r#1;0;1;
ends 0
# a file of its own keeps its number
run query x.o number 1 2 1
> 1
> 0 t b r#0;0;2;
ends 0
run query x.o number 1 3 1
> 1
> 0 t a r#0;0;1;
ends 0
run check x.o
> units 2 headers 5 excluded 2 symbols 5
ends 0
object little x.o 64:w.c 82@5:h.h 80:h:t(1,1)=*(1,2) 80:g:t(1,2)=r(1,2);0;1; a2: c2@5:h.h
# in the unit of its range, which keeps its number
run query x.o number 0 1 1
> 2
> 0 t h *#1
> 1 t g r#1;0;1;
ends 0
# what it takes over gets the number of no file, since the unit has two for the range
run query x.o number 0 2 1
> 1
> 0 - - undefined
ends 0
run query x.o number 0 65536 1
> 2
> 0 - - *#1
> 1 - - r#1;0;1;
ends 0
run check x.o
> units 1 headers 2 excluded 1 symbols 4
ends 0
object big x.o 64:w.c 82@5:h.h 80:h:t(1,1)=*(1,2) 80:g:t(1,2)=r(1,2);0;1; a2: 64:x.c c2@5:h.h c2@5:h.h 80:x:t(0,1)=*(1,1)
# two for one range in one unit
run query x.o type 1 h
> 2
> 0 - - *#1
> 1 - - r#1;0;1;
ends 0
# so the unit's own numbers lead nowhere
run query x.o type 1 x
> 2
> 0 t x *#1
> 1 - - undefined
ends 0
run check x.o
> units 2 headers 3 excluded 2 symbols 7
ends 0
object little x.o 64:w.c 82@5:h.h 80:h:t(1,1)=*(2,1) a2: 64:x.c c2@5:h.h 82@5:g.h 80:g:t(2,1)=r(2,1);0;1; a2:
# a number that names no header of the unit of the range
run query x.o type 1 h
> 2
> 0 t h *#1
> 1 - - undefined
ends 0
object little x.o 64:w.c 82@5:h.h 80:h:t(1,1)=*(2,1) a2: 82@5:g.h 80:g:t(2,1)=r(2,1);0;1; a2: 64:x.c c2@5:h.h 82@5:i.h 80:i:t(2,1)=r(2,1);0;2; a2:
# a number that names a header which the other unit has not
run query x.o type 1 h
> 2
> 0 t h *#1
> 1 - - undefined
ends 0
object little x.o 64:w.c 82@5:h.h 80:h:t(1,1)=r(1,1);0;1; 82@6:g.h 80:g:t(2,1)=*(1,1) a2: a2: 64:x.c 82@7:o.h c2@5:h.h c2@6:g.h 80:o:t(1,1)=*(3,1) a2:
# headers inside others
run query x.o type 1 o
> 3
> 0 t o *#1
> 1 t g *#2
> 2 t h r#2;0;1;
ends 0
run query x.o files 1
> 0 x.c
> 1 o.h
> 2 h.h
> 3 g.h
ends 0
run check x.o
> units 2 headers 5 excluded 2 symbols 5
ends 0
object little x.o 64:w.c 82@5:h.h a2: 64:x.c c2@4:h.h
# a value that differs in its last bit
run query x.o units
> refused x.o 100 4 0
ends 3
run check x.o
> refused x.o 100 4 0
ends 3
object little x.o 64:w.c 82@5:h.h a2: 64:x.c c2@5:g.h
# another name
run query x.o units
> refused x.o 100 4 0
ends 3
object big x.o 64:w.c c2@5:h.h 64:x.c c2@5:h.h
# an excluded header is no range
run query x.o units
> refused x.o 100 1 0
ends 3
object little x.o 64:w.c 82@5:h.h a2: 82@5:h.h a2: 64:x.c c2@5:h.h
# two ranges of its name and value
run query x.o units
> refused x.o 101 6 0
ends 3
run check x.o
> refused x.o 101 6 0
ends 3
object little x.o 64:w.c 82@5:h.h a2: 82@5:h.h a2: c2@5:h.h c2@5:g.h
# the first of two
run query x.o units
> refused x.o 101 5 0
ends 3
object little x.o 64:x.c 80:x:t(01,2) c2@5:h.h
# before a wrong string
run query x.o units
> refused x.o 100 2 0
ends 3
object little x.o 64:w.c 82@5:h.h 80:h:t(01,2) a2: 64:x.c c2@5:h.h
# a wrong string is told where it stands
run query x.o units
> refused x.o 40 2 5
ends 3
";
