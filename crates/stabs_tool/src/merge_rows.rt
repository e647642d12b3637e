/// Rows of `link merge`, and of what is asked of merged images. Expected lines are worked by hand, and in part come from a model of the
/// rules that was written apart from the program.
pub const ROWS: &[u8] = b"
# ---- headers merged
# two units that share two headers in another order: those of the second go
little .stabs \"/w/\",100,0,0,Ltext0|.stabs \"a.c\",100,0,0,Ltext0|.text|Ltext0:|.stabs \"gcc2_compiled.\",60,0,0,0|.stabs \"int:t(0,1)=r(0,1);-2147483648;2147483647;\",128,0,0,0|.stabs \"stdio.h\",130,0,0,0|.stabs \"size_t:t(1,1)=(0,1)\",128,0,0,0|.stabn 162,0,0,0|.stabs \"list.h\",130,0,0,0|.stabs \"list:T(2,1)=s8val:(0,1),0,32;next:(2,2)=*(2,1),32,32;;\",128,0,0,0|.stabn 162,0,0,0|.globl _main|_main:|.stabs \"main:F(0,1)\",36,0,3,_main|.stabs \"argc:p(0,1)\",160,0,0,8|.stabn 68,0,4,LM1|LM1:|.long 0|.stabn 68,0,5,LM2|LM2:|.long _f|.stabs \"head:(0,2)=*(2,1)\",128,0,0,-4|.stabn 192,0,0,LM1-Ltext0|.stabn 224,0,0,LE-Ltext0|LE:|.comm _total,4|.stabs \"total:G(0,1)\",32,0,0,0|.stabn 100,0,0,LE
keep a1.o out.o
little .stabs \"b.c\",100,0,0,Ltext0|.text|Ltext0:|.stabs \"int:t(0,1)=r(0,1);-2147483648;2147483647;\",128,0,0,0|.stabs \"list.h\",130,0,0,0|.stabs \"list:T(1,1)=s8val:(0,1),0,32;next:(1,2)=*(1,1),32,32;;\",128,0,0,0|.stabn 162,0,0,0|.stabs \"stdio.h\",130,0,0,0|.stabs \"size_t:t(2,1)=(0,1)\",128,0,0,0|.stabn 162,0,0,0|.globl _f|_f:|.stabs \"f:F(0,1)\",36,0,7,_f|.stabn 68,0,8,LM1|LM1:|.long 0|LE:|.stabn 100,0,0,LE
keep b1.o out.o
run link merge 0x1000 out a1.o b1.o
> ranges 4 kept 2 entries 30
ends 0
keep image.o out
run query image.o units
> 0 00001000 00001008 /w/a.c
> 1 00001008 0000100c b.c
ends 0
run query image.o tag 1 list
> 3
> 0 T list s8val:#1,0,32;next:#2,32,32;;
> 1 t int r#1;-2147483648;2147483647;
> 2 - - *#0
ends 0
run query image.o line 0x1006
> /w/a.c 5 00001004
ends 0
run query image.o addresses /w/a.c 5
> 0 00001004
ends 0
run query image.o scope 0x1005
> unit 0 /w/a.c
> function main 00001000
> var p argc (0,1) 00000008
> block 00001000 00001008
> var - head (0,2)=*(2,1) fffffffc
> var G total (0,1) 0000100c
ends 0
run query image.o scope 0x2000
> none
ends 0
run check image.o
> units 2 headers 4 excluded 2 symbols 11
ends 0
# the image is asked without being stored
run ask a1.o b1.o -- scope 0x5
> ranges 4 kept 2 entries 30
> unit 0 /w/a.c
> function main 00000000
> var p argc (0,1) 00000008
> block 00000000 00000008
> var - head (0,2)=*(2,1) fffffffc
> var G total (0,1) 0000000c
ends 0
run ask a1.o b1.o -- tag 1 list
> ranges 4 kept 2 entries 30
> 3
> 0 T list s8val:#1,0,32;next:#2,32,32;;
> 1 t int r#1;-2147483648;2147483647;
> 2 - - *#0
ends 0
# two units that share two headers in another order: those of the second go
big .stabs \"/w/\",100,0,0,Ltext0|.stabs \"a.c\",100,0,0,Ltext0|.text|Ltext0:|.stabs \"gcc2_compiled.\",60,0,0,0|.stabs \"int:t(0,1)=r(0,1);-2147483648;2147483647;\",128,0,0,0|.stabs \"stdio.h\",130,0,0,0|.stabs \"size_t:t(1,1)=(0,1)\",128,0,0,0|.stabn 162,0,0,0|.stabs \"list.h\",130,0,0,0|.stabs \"list:T(2,1)=s8val:(0,1),0,32;next:(2,2)=*(2,1),32,32;;\",128,0,0,0|.stabn 162,0,0,0|.globl _main|_main:|.stabs \"main:F(0,1)\",36,0,3,_main|.stabs \"argc:p(0,1)\",160,0,0,8|.stabn 68,0,4,LM1|LM1:|.long 0|.stabn 68,0,5,LM2|LM2:|.long _f|.stabs \"head:(0,2)=*(2,1)\",128,0,0,-4|.stabn 192,0,0,LM1-Ltext0|.stabn 224,0,0,LE-Ltext0|LE:|.comm _total,4|.stabs \"total:G(0,1)\",32,0,0,0|.stabn 100,0,0,LE
keep a1.o out.o
big .stabs \"b.c\",100,0,0,Ltext0|.text|Ltext0:|.stabs \"int:t(0,1)=r(0,1);-2147483648;2147483647;\",128,0,0,0|.stabs \"list.h\",130,0,0,0|.stabs \"list:T(1,1)=s8val:(0,1),0,32;next:(1,2)=*(1,1),32,32;;\",128,0,0,0|.stabn 162,0,0,0|.stabs \"stdio.h\",130,0,0,0|.stabs \"size_t:t(2,1)=(0,1)\",128,0,0,0|.stabn 162,0,0,0|.globl _f|_f:|.stabs \"f:F(0,1)\",36,0,7,_f|.stabn 68,0,8,LM1|LM1:|.long 0|LE:|.stabn 100,0,0,LE
keep b1.o out.o
run link merge 0x1000 out a1.o b1.o
> ranges 4 kept 2 entries 30
ends 0
keep image.o out
run query image.o units
> 0 00001000 00001008 /w/a.c
> 1 00001008 0000100c b.c
ends 0
run query image.o tag 1 list
> 3
> 0 T list s8val:#1,0,32;next:#2,32,32;;
> 1 t int r#1;-2147483648;2147483647;
> 2 - - *#0
ends 0
run query image.o line 0x1006
> /w/a.c 5 00001004
ends 0
run query image.o addresses /w/a.c 5
> 0 00001004
ends 0
run query image.o scope 0x1005
> unit 0 /w/a.c
> function main 00001000
> var p argc (0,1) 00000008
> block 00001000 00001008
> var - head (0,2)=*(2,1) fffffffc
> var G total (0,1) 0000100c
ends 0
run query image.o scope 0x2000
> none
ends 0
run check image.o
> units 2 headers 4 excluded 2 symbols 11
ends 0
# the image is asked without being stored
run ask a1.o b1.o -- scope 0x5
> ranges 4 kept 2 entries 30
> unit 0 /w/a.c
> function main 00000000
> var p argc (0,1) 00000008
> block 00000000 00000008
> var - head (0,2)=*(2,1) fffffffc
> var G total (0,1) 0000000c
ends 0
run ask a1.o b1.o -- tag 1 list
> ranges 4 kept 2 entries 30
> 3
> 0 T list s8val:#1,0,32;next:#2,32,32;;
> 1 t int r#1;-2147483648;2147483647;
> 2 - - *#0
ends 0
# headers of one name and sum, whose numbers name other headers
little .stabs \"u.c\",100,0,0,0|.stabs \"int:t(0,1)=r(0,1);-2147483648;2147483647;\",128,0,0,0|.stabs \"a.h\",130,0,0,0|.stabs \"a:t(1,1)=(0,1)\",128,0,0,0|.stabn 162,0,0,0|.stabs \"h.h\",130,0,0,0|.stabs \"h:t(2,1)=*(1,1)\",128,0,0,0|.stabn 162,0,0,0
keep u.o out.o
little .stabs \"v.c\",100,0,0,0|.stabs \"int:t(0,1)=r(0,1);-2147483648;2147483647;\",128,0,0,0|.stabs \"b.h\",130,0,0,0|.stabs \"b:t(1,1)=*(0,1)\",128,0,0,0|.stabn 162,0,0,0|.stabs \"h.h\",130,0,0,0|.stabs \"h:t(2,1)=*(1,1)\",128,0,0,0|.stabn 162,0,0,0
keep v.o out.o
run link merge 0x0 out u.o v.o
> ranges 4 kept 4 entries 16
ends 0
keep image.o out
run query image.o type 1 h
> 3
> 0 t h *#1
> 1 t b *#2
> 2 t int r#2;-2147483648;2147483647;
ends 0
run dump image.o
has 5 N_BINCL 00 0000 000002d9 h.h
has 13 N_BINCL 00 0000 000002da h.h
# two headers that name each other, in another order
little .stabs \"u.c\",100,0,0,0|.stabs \"p.h\",130,0,0,0|.stabs \"p:t(1,1)=*(2,1)\",128,0,0,0|.stabn 162,0,0,0|.stabs \"q.h\",130,0,0,0|.stabs \"q:t(2,1)=*(1,1)\",128,0,0,0|.stabn 162,0,0,0
keep u.o out.o
little .stabs \"v.c\",100,0,0,0|.stabs \"q.h\",130,0,0,0|.stabs \"q:t(1,1)=*(2,1)\",128,0,0,0|.stabn 162,0,0,0|.stabs \"p.h\",130,0,0,0|.stabs \"p:t(2,1)=*(1,1)\",128,0,0,0|.stabn 162,0,0,0
keep v.o out.o
run link merge 0x0 out u.o v.o
> ranges 4 kept 2 entries 10
ends 0
keep image.o out
run query image.o type 1 p
> 2
> 0 t p *#1
> 1 t q *#0
ends 0
run query image.o files 1
> 0 v.c
> 1 q.h
> 2 p.h
ends 0
# equal sums and other shapes
little .stabs \"u0.c\",100,0,0,0|.stabs \"int:t(0,1)=r(0,1);-2147483648;2147483647;\",128,0,0,0|.stabs \"s.h\",130,0,0,0|.stabs \"s:T(1,1)=s8ab:(0,1),0,32;ba:(0,1),32,32;;\",128,0,0,0|.stabn 162,0,0,0
keep u0.o out.o
little .stabs \"u1.c\",100,0,0,0|.stabs \"int:t(0,1)=r(0,1);-2147483648;2147483647;\",128,0,0,0|.stabs \"s.h\",130,0,0,0|.stabs \"s:T(1,1)=s8ba:(0,1),0,32;ab:(0,1),32,32;;\",128,0,0,0|.stabn 162,0,0,0
keep u1.o out.o
little .stabs \"u2.c\",100,0,0,0|.stabs \"int:t(0,1)=r(0,1);-2147483648;2147483647;\",128,0,0,0|.stabs \"s.h\",130,0,0,0|.stabs \"s:T(1,1)=s8ba:(0,1),0,32;ab:(0,1),32,32;;\",128,0,0,0|.stabn 162,0,0,0
keep u2.o out.o
run link merge 0x0 out u0.o u1.o u2.o
> ranges 3 kept 2 entries 13
ends 0
keep image.o out
run query image.o tag 2 s
> 2
> 0 T s s8ba:#1,0,32;ab:#1,32,32;;
> 1 t int r#1;-2147483648;2147483647;
ends 0
run dump image.o
has 2 N_BINCL 00 0000 000008ad s.h
has 7 N_BINCL 00 0000 000008ae s.h
has 12 N_EXCL 00 0000 000008ae s.h
# a header that one unit has twice is not merged
little .stabs \"u.c\",100,0,0,0|.stabs \"int:t(0,1)=r(0,1);-2147483648;2147483647;\",128,0,0,0|.stabs \"h.h\",130,0,0,0|.stabs \"h:t(1,1)=(0,1)\",128,0,0,0|.stabn 162,0,0,0|.stabs \"h.h\",130,0,0,0|.stabs \"h:t(2,1)=(0,1)\",128,0,0,0|.stabn 162,0,0,0
keep u.o out.o
little .stabs \"v.c\",100,0,0,0|.stabs \"int:t(0,1)=r(0,1);-2147483648;2147483647;\",128,0,0,0|.stabs \"h.h\",130,0,0,0|.stabs \"h:t(1,1)=(0,1)\",128,0,0,0|.stabn 162,0,0,0
keep v.o out.o
run link merge 0x0 out u.o v.o
> ranges 3 kept 3 entries 13
ends 0
# a header that holds lines stays, inside one that goes
little .long 0|.stabs \"u.c\",100,0,0,0|.stabs \"int:t(0,1)=r(0,1);-2147483648;2147483647;\",128,0,0,0|.stabs \"o.h\",130,0,0,0|.stabs \"o:t(1,1)=(0,1)\",128,0,0,0|.stabs \"n.h\",130,0,0,0|.stabn 68,0,9,0|.stabn 162,0,0,0|.stabn 162,0,0,0
keep u.o out.o
little .long 0|.stabs \"v.c\",100,0,0,0|.stabs \"int:t(0,1)=r(0,1);-2147483648;2147483647;\",128,0,0,0|.stabs \"o.h\",130,0,0,0|.stabs \"o:t(1,1)=(0,1)\",128,0,0,0|.stabs \"n.h\",130,0,0,0|.stabn 68,0,9,0|.stabn 162,0,0,0|.stabn 162,0,0,0
keep v.o out.o
run link merge 0x0 out u.o v.o
> ranges 4 kept 3 entries 14
ends 0
keep image.o out
run query image.o line 0x4
> v.c 9 00000004
ends 0
run query image.o line 0x7
> v.c 9 00000004
ends 0
run check image.o
> units 2 headers 4 excluded 1 symbols 4
ends 0
# an excluded header that stands nowhere
little .stabs \"x.c\",100,0,0,0|.stabs \"h.h\",194,0,0,5
keep x.o out.o
run query x.o units
> refused x.o 100 1 0
ends 3
run check x.o
> refused x.o 100 1 0
ends 3
# an object may hold no excluded header
run link merge 0x0 out x.o
> refused x.o 55 1 0
ends 3
# and one that stands twice
little .stabs \"w.c\",100,0,0,0|.stabs \"h.h\",130,0,0,5|.stabn 162,0,0,0|.stabs \"h.h\",130,0,0,5|.stabn 162,0,0,0|.stabs \"x.c\",100,0,0,0|.stabs \"h.h\",194,0,0,5
keep x.o out.o
run query x.o units
> refused x.o 101 6 0
ends 3
run check x.o
> refused x.o 101 6 0
ends 3
# a chain of five headers, each of which refers to the next
little .stabs \"u.c\",100,0,0,0|.stabs \"int:t(0,1)=r(0,1);-2147483648;2147483647;\",128,0,0,0|.stabs \"c0.h\",130,0,0,0|.stabs \"c0:t(1,1)=*(2,1)\",128,0,0,0|.stabn 162,0,0,0|.stabs \"c1.h\",130,0,0,0|.stabs \"c1:t(2,1)=*(3,1)\",128,0,0,0|.stabn 162,0,0,0|.stabs \"c2.h\",130,0,0,0|.stabs \"c2:t(3,1)=*(4,1)\",128,0,0,0|.stabn 162,0,0,0|.stabs \"c3.h\",130,0,0,0|.stabs \"c3:t(4,1)=*(5,1)\",128,0,0,0|.stabn 162,0,0,0|.stabs \"c4.h\",130,0,0,0|.stabs \"c4:t(5,1)=(0,1)\",128,0,0,0|.stabn 162,0,0,0
keep u.o out.o
little .stabs \"v.c\",100,0,0,0|.stabs \"int:t(0,1)=r(0,1);-2147483648;2147483647;\",128,0,0,0|.stabs \"c0.h\",130,0,0,0|.stabs \"c0:t(1,1)=*(2,1)\",128,0,0,0|.stabn 162,0,0,0|.stabs \"c1.h\",130,0,0,0|.stabs \"c1:t(2,1)=*(3,1)\",128,0,0,0|.stabn 162,0,0,0|.stabs \"c2.h\",130,0,0,0|.stabs \"c2:t(3,1)=*(4,1)\",128,0,0,0|.stabn 162,0,0,0|.stabs \"c3.h\",130,0,0,0|.stabs \"c3:t(4,1)=*(5,1)\",128,0,0,0|.stabn 162,0,0,0|.stabs \"c4.h\",130,0,0,0|.stabs \"c4:t(5,1)=(0,1)\",128,0,0,0|.stabn 162,0,0,0
keep v.o out.o
run link merge 0x0 out u.o v.o
> ranges 10 kept 5 entries 24
ends 0
keep image.o out
run query image.o type 1 c0
> 6
> 0 t c0 *#1
> 1 t c1 *#2
> 2 t c2 *#3
> 3 t c3 *#4
> 4 t c4 #5
> 5 t int r#5;-2147483648;2147483647;
ends 0
run query image.o files 1
> 0 v.c
> 1 c0.h
> 2 c1.h
> 3 c2.h
> 4 c3.h
> 5 c4.h
ends 0
run check image.o
> units 2 headers 10 excluded 5 symbols 12
ends 0
run ask u.o v.o -- number 1 5 1
> ranges 10 kept 5 entries 24
> 2
> 0 t c4 #1
> 1 t int r#1;-2147483648;2147483647;
ends 0
# the same, where the last differs: none goes
big .stabs \"u.c\",100,0,0,0|.stabs \"int:t(0,1)=r(0,1);-2147483648;2147483647;\",128,0,0,0|.stabs \"c0.h\",130,0,0,0|.stabs \"c0:t(1,1)=*(2,1)\",128,0,0,0|.stabn 162,0,0,0|.stabs \"c1.h\",130,0,0,0|.stabs \"c1:t(2,1)=*(3,1)\",128,0,0,0|.stabn 162,0,0,0|.stabs \"c2.h\",130,0,0,0|.stabs \"c2:t(3,1)=*(4,1)\",128,0,0,0|.stabn 162,0,0,0|.stabs \"c3.h\",130,0,0,0|.stabs \"c3:t(4,1)=*(5,1)\",128,0,0,0|.stabn 162,0,0,0|.stabs \"c4.h\",130,0,0,0|.stabs \"c4:t(5,1)=(0,1)\",128,0,0,0|.stabn 162,0,0,0
keep u.o out.o
big .stabs \"v.c\",100,0,0,0|.stabs \"int:t(0,1)=r(0,1);-2147483648;2147483647;\",128,0,0,0|.stabs \"c0.h\",130,0,0,0|.stabs \"c0:t(1,1)=*(2,1)\",128,0,0,0|.stabn 162,0,0,0|.stabs \"c1.h\",130,0,0,0|.stabs \"c1:t(2,1)=*(3,1)\",128,0,0,0|.stabn 162,0,0,0|.stabs \"c2.h\",130,0,0,0|.stabs \"c2:t(3,1)=*(4,1)\",128,0,0,0|.stabn 162,0,0,0|.stabs \"c3.h\",130,0,0,0|.stabs \"c3:t(4,1)=*(5,1)\",128,0,0,0|.stabn 162,0,0,0|.stabs \"c4.h\",130,0,0,0|.stabs \"c4:t(5,1)=*(0,1)\",128,0,0,0|.stabn 162,0,0,0
keep v.o out.o
run link merge 0x0 out u.o v.o
> ranges 10 kept 10 entries 34
ends 0
keep image.o out
run query image.o type 1 c0
> 6
> 0 t c0 *#1
> 1 t c1 *#2
> 2 t c2 *#3
> 3 t c3 *#4
> 4 t c4 *#5
> 5 t int r#5;-2147483648;2147483647;
ends 0
run check image.o
> units 2 headers 10 excluded 0 symbols 12
ends 0
# a ring of three headers, in another order
little .stabs \"u.c\",100,0,0,0|.stabs \"x.h\",130,0,0,0|.stabs \"x:t(1,1)=*(2,1)\",128,0,0,0|.stabn 162,0,0,0|.stabs \"y.h\",130,0,0,0|.stabs \"y:t(2,1)=*(3,1)\",128,0,0,0|.stabn 162,0,0,0|.stabs \"z.h\",130,0,0,0|.stabs \"z:t(3,1)=*(1,1)\",128,0,0,0|.stabn 162,0,0,0
keep u.o out.o
little .stabs \"v.c\",100,0,0,0|.stabs \"z.h\",130,0,0,0|.stabs \"z:t(1,1)=*(2,1)\",128,0,0,0|.stabn 162,0,0,0|.stabs \"x.h\",130,0,0,0|.stabs \"x:t(2,1)=*(3,1)\",128,0,0,0|.stabn 162,0,0,0|.stabs \"y.h\",130,0,0,0|.stabs \"y:t(3,1)=*(1,1)\",128,0,0,0|.stabn 162,0,0,0
keep v.o out.o
run link merge 0x0 out u.o v.o
> ranges 6 kept 3 entries 14
ends 0
keep image.o out
run query image.o type 1 x
> 3
> 0 t x *#1
> 1 t y *#2
> 2 t z *#0
ends 0
run query image.o number 1 1 1
> 3
> 0 t z *#1
> 1 t x *#2
> 2 t y *#0
ends 0
run check image.o
> units 2 headers 6 excluded 3 symbols 6
ends 0
run ask u.o v.o -- type 1 y
> ranges 6 kept 3 entries 14
> 3
> 0 t y *#1
> 1 t z *#2
> 2 t x *#0
ends 0
# a header that is empty in two units
little .stabs \"u.c\",100,0,0,0|.stabs \"int:t(0,1)=r(0,1);-2147483648;2147483647;\",128,0,0,0|.stabs \"e.h\",130,0,0,0|.stabn 162,0,0,0
keep u.o out.o
little .stabs \"v.c\",100,0,0,0|.stabs \"e.h\",130,0,0,0|.stabn 162,0,0,0|.stabs \"int:t(0,1)=r(0,1);-2147483648;2147483647;\",128,0,0,0
keep v.o out.o
run link merge 0x0 out u.o v.o
> ranges 2 kept 1 entries 7
ends 0
keep image.o out
run query image.o files 1
> 0 v.c
> 1 e.h
ends 0
run query image.o type 1 int
> 1
> 0 t int r#0;-2147483648;2147483647;
ends 0
run check image.o
> units 2 headers 2 excluded 1 symbols 2
ends 0
# a number that names no header
little .stabs \"u.c\",100,0,0,0|.stabs \"h.h\",130,0,0,0|.stabs \"h:t(1,1)=*(7,1)\",128,0,0,0|.stabn 162,0,0,0
keep u.o out.o
little .stabs \"v.c\",100,0,0,0|.stabs \"h.h\",130,0,0,0|.stabs \"h:t(1,1)=*(7,1)\",128,0,0,0|.stabn 162,0,0,0
keep v.o out.o
run link merge 0x0 out u.o v.o
> ranges 2 kept 2 entries 8
ends 0
keep image.o out
run query image.o type 1 h
> 2
> 0 t h *#1
> 1 - - undefined
ends 0
run check image.o
> units 2 headers 2 excluded 0 symbols 2
ends 0
# one name in three units, two of which have the same types
little .stabs \"u.c\",100,0,0,0|.stabs \"h.h\",130,0,0,0|.stabs \"h:t(1,1)=k(1,2)\",128,0,0,0|.stabs \"i:t(1,2)=r(1,2);0;1;\",128,0,0,0|.stabn 162,0,0,0
keep u.o out.o
little .stabs \"v.c\",100,0,0,0|.stabs \"h.h\",130,0,0,0|.stabs \"h:t(1,1)=r(1,1);0;1;\",128,0,0,0|.stabn 162,0,0,0
keep v.o out.o
little .stabs \"w.c\",100,0,0,0|.stabs \"h.h\",130,0,0,0|.stabs \"h:t(1,1)=k(1,2)\",128,0,0,0|.stabs \"i:t(1,2)=r(1,2);0;1;\",128,0,0,0|.stabn 162,0,0,0
keep w.o out.o
run link merge 0x0 out u.o v.o w.o
> ranges 3 kept 2 entries 11
ends 0
keep image.o out
run query image.o type 2 h
> 2
> 0 t h k#1
> 1 t i r#1;0;1;
ends 0
run query image.o type 1 h
> 1
> 0 t h r#0;0;1;
ends 0
run check image.o
> units 3 headers 3 excluded 1 symbols 5
ends 0
# plain numbers belong to the shape
little .stabs \"u.c\",100,0,0,0|.stabs \"h.h\",130,0,0,0|.stabs \"h:t(1,1)=*7\",128,0,0,0|.stabn 162,0,0,0
keep u.o out.o
little .stabs \"v.c\",100,0,0,0|.stabs \"h.h\",130,0,0,0|.stabs \"h:t(1,1)=*7\",128,0,0,0|.stabn 162,0,0,0
keep v.o out.o
little .stabs \"w.c\",100,0,0,0|.stabs \"h.h\",130,0,0,0|.stabs \"h:t(1,1)=*8\",128,0,0,0|.stabn 162,0,0,0
keep w.o out.o
run link merge 0x0 out u.o v.o w.o
> ranges 3 kept 2 entries 10
ends 0
keep image.o out
run query image.o type 1 h
> 2
> 0 t h *#1
> 1 - - undefined
ends 0
run query image.o type 2 h
> 2
> 0 t h *#1
> 1 - - undefined
ends 0
run check image.o
> units 3 headers 3 excluded 1 symbols 3
ends 0
# the same headers, each of which is kept
little .stabs \"u.c\",100,0,0,0|.stabs \"x.h\",130,0,0,0|.stabs \"x:t(1,1)=*(2,1)\",128,0,0,0|.stabn 162,0,0,0|.stabs \"y.h\",130,0,0,0|.stabs \"y:t(2,1)=*(3,1)\",128,0,0,0|.stabn 162,0,0,0|.stabs \"z.h\",130,0,0,0|.stabs \"z:t(3,1)=*(1,1)\",128,0,0,0|.stabn 162,0,0,0
keep u.o out.o
little .stabs \"v.c\",100,0,0,0|.stabs \"x.h\",130,0,0,0|.stabs \"x:t(1,1)=*(2,1)\",128,0,0,0|.stabn 162,0,0,0|.stabs \"y.h\",130,0,0,0|.stabs \"y:t(2,1)=*(3,1)\",128,0,0,0|.stabn 162,0,0,0|.stabs \"z.h\",130,0,0,0|.stabs \"z:t(3,1)=*(1,1)\",128,0,0,0|.stabn 162,0,0,0
keep v.o out.o
run link keep 0x0 out u.o v.o
> ranges 6 kept 6 entries 20
ends 0
keep image.o out
run query image.o type 1 x
> 3
> 0 t x *#1
> 1 t y *#2
> 2 t z *#0
ends 0
run check image.o
> units 2 headers 6 excluded 0 symbols 6
ends 0
# a second -- is the name of a tag
run ask a1.o b1.o -- tag 0 --
> ranges 4 kept 2 entries 30
> none
ends 0
# a store that fails behind merged headers, and a put that fails
files 2
run link merge 0x0 out u.o v.o
> write fault
lacks out
ends 7
sink 0
run link merge 0x0 out u.o v.o
ends 7
rows 547
";
