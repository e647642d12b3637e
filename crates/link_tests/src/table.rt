/// The rows of the test; `tests.rt` says how its lines are read. They are worked by hand, long texts by a model of the rules.
pub const ROWS: &[u8] = b"\
# two sources of a compiler that include the same headers
order little
source .stabs \"/w/\",100,0,0,Ltext0|.stabs \"a.c\",100,0,0,Ltext0|.text|Ltext0:|.stabs \"gcc2_compiled.\",60,0,0,0|.stabs \"int:t(0,1)=r(0,1);-2147483648;2147483647;\",128,0,0,0|.stabs \"stdio.h\",130,0,0,0|.stabs \"size_t:t(1,1)=(0,1)\",128,0,0,0|.stabn 162,0,0,0|.stabs \"list.h\",130,0,0,0|.stabs \"list:T(2,1)=s8val:(0,1),0,32;next:(2,2)=*(2,1),32,32;;\",128,0,0,0|.stabn 162,0,0,0|.globl _main|_main:|.stabs \"main:F(0,1)\",36,0,3,_main|.stabs \"argc:p(0,1)\",160,0,0,8|.stabn 68,0,4,LM1|LM1:|.long 0|.stabn 68,0,5,LM2|LM2:|.long _f|.stabs \"head:(0,2)=*(2,1)\",128,0,0,-4|.stabn 192,0,0,LM1-Ltext0|.stabn 224,0,0,LE-Ltext0|LE:|.comm _total,4|.stabs \"total:G(0,1)\",32,0,0,0|.stabn 100,0,0,LE
source .stabs \"b.c\",100,0,0,Ltext0|.text|Ltext0:|.stabs \"int:t(0,1)=r(0,1);-2147483648;2147483647;\",128,0,0,0|.stabs \"list.h\",130,0,0,0|.stabs \"list:T(1,1)=s8val:(0,1),0,32;next:(1,2)=*(1,1),32,32;;\",128,0,0,0|.stabn 162,0,0,0|.stabs \"stdio.h\",130,0,0,0|.stabs \"size_t:t(2,1)=(0,1)\",128,0,0,0|.stabn 162,0,0,0|.globl _f|_f:|.stabs \"f:F(0,1)\",36,0,7,_f|.stabn 68,0,8,LM1|LM1:|.long 0|LE:|.stabn 100,0,0,LE
link 1000 ranges 4 kept 4 entries 34
has .entry 0x00001000
has .bsize 4
has .byte 0x00,0x00,0x00,0x00,0x08,0x10,0x00,0x00,0x00,0x00,0x00,0x00
has .stabs \"stdio.h\",130,0,0,0x000004d5
has .stabs \"stdio.h\",130,0,0,0x000004d6
has .stabs \"list.h\",130,0,0,0x00000c88
has .stabs \"list.h\",130,0,0,0x00000c89
has .stabs \"_total\",9,0,0,0x0000100c
has .stabs \"_f\",5,0,0,0x00001008
has .stabn 68,0,5,0x00001004
has .stabn 192,0,0,0x00000000
has .stabs \"head:(0,2)=*(2,1)\",128,0,0,0xfffffffc
order big
source .stabs \"/w/\",100,0,0,Ltext0|.stabs \"a.c\",100,0,0,Ltext0|.text|Ltext0:|.stabs \"gcc2_compiled.\",60,0,0,0|.stabs \"int:t(0,1)=r(0,1);-2147483648;2147483647;\",128,0,0,0|.stabs \"stdio.h\",130,0,0,0|.stabs \"size_t:t(1,1)=(0,1)\",128,0,0,0|.stabn 162,0,0,0|.stabs \"list.h\",130,0,0,0|.stabs \"list:T(2,1)=s8val:(0,1),0,32;next:(2,2)=*(2,1),32,32;;\",128,0,0,0|.stabn 162,0,0,0|.globl _main|_main:|.stabs \"main:F(0,1)\",36,0,3,_main|.stabs \"argc:p(0,1)\",160,0,0,8|.stabn 68,0,4,LM1|LM1:|.long 0|.stabn 68,0,5,LM2|LM2:|.long _f|.stabs \"head:(0,2)=*(2,1)\",128,0,0,-4|.stabn 192,0,0,LM1-Ltext0|.stabn 224,0,0,LE-Ltext0|LE:|.comm _total,4|.stabs \"total:G(0,1)\",32,0,0,0|.stabn 100,0,0,LE
source .stabs \"b.c\",100,0,0,Ltext0|.text|Ltext0:|.stabs \"int:t(0,1)=r(0,1);-2147483648;2147483647;\",128,0,0,0|.stabs \"list.h\",130,0,0,0|.stabs \"list:T(1,1)=s8val:(0,1),0,32;next:(1,2)=*(1,1),32,32;;\",128,0,0,0|.stabn 162,0,0,0|.stabs \"stdio.h\",130,0,0,0|.stabs \"size_t:t(2,1)=(0,1)\",128,0,0,0|.stabn 162,0,0,0|.globl _f|_f:|.stabs \"f:F(0,1)\",36,0,7,_f|.stabn 68,0,8,LM1|LM1:|.long 0|LE:|.stabn 100,0,0,LE
link 1000 ranges 4 kept 4 entries 34
has .byte 0x00,0x00,0x00,0x00,0x00,0x00,0x10,0x08,0x00,0x00,0x00,0x00
# a field of one byte: its address does not fit
order little
source .byte _x|.data|_x: .long 0
link 1000 refused 25 0 0
# the greatest and the least sum of one byte, and one more
order little
source .byte _a|.stabs \"_a\",3,0,0,255
link 1000 ranges 0 kept 0 entries 2
has .byte 0xff,0x00,0x00,0x00
order little
source .byte _a|.stabs \"_a\",3,0,0,0xffffff80
link 1000 ranges 0 kept 0 entries 2
has .byte 0x80,0x00,0x00,0x00
order little
source .byte _a|.stabs \"_a\",3,0,0,256
link 1000 refused 25 0 0
order little
source .byte _a|.stabs \"_a\",3,0,0,0xffffff7f
link 1000 refused 25 0 0
# of two bytes, the most significant first
order big
source .short _a|.stabs \"_a\",3,0,0,65535
link 1000 ranges 0 kept 0 entries 2
has .byte 0xff,0xff,0x00,0x00
order big
source .short _a|.stabs \"_a\",3,0,0,65536
link 1000 refused 25 0 0
# a field past its segment, and a symbol that is no entry, a stab, or of kind 0
order little
source .byte 1
source .byte 1,2,3|.rel text,0,4,4
link 1000 refused 23 1 0
order little
source .long 1|.rel text,0,4,4|.rel text,0,1,12|.stabs \"_a\",3,0,0,1
link 1000 refused 24 0 1
order little
source .long 1|.rel text,0,0,12|.stabs \"a.c\",100,0,0,1
link 1000 refused 24 0 0
order little
source .data|.long 1|.rel data,0,0,12|.stabs \"_a\",0,0,0,1
link 1000 refused 24 0 0
# a name that is nowhere defined, and one that is defined twice
order little
source .byte 1|.long 1|.long _gone
link 0 refused 92 0 0
order little
source .globl _f|_f:
source .byte 1|.globl _g|_g: .globl _f|_f:
link 0 refused 93 1 1
# twice before undefined
order little
source .long _gone|.globl _f|_f:
source .globl _f|_f:
link 0 refused 93 1 0
# another machine
order little
source .machine 1
source .machine 1
source .machine 2
link 0 refused 91 2 0
# commons take the greatest size behind the objects, and a definition goes before them
order little
source .comm _c,4|.long _c
source .comm _c,9|.byte 1|.lcomm l,1
link 1000 ranges 0 kept 0 entries 3
has .bsize 16
has .byte 0x0c,0x10,0x00,0x00,0x01,0x00,0x00,0x00
has .stabs \"_c\",9,0,0,0x0000100c
has .stabs \"l\",8,0,0,0x00001008
order little
source .comm _c,400|.long _c
source .data|.globl _c|_c: .long 7
link 1000 ranges 0 kept 0 entries 2
has .bsize 0
has .byte 0x04,0x10,0x00,0x00
has .stabs \"_c\",7,0,0,0x00001004
# what moves with each segment: labels, and stabs by their code
order little
source .byte 1|.stabs \"u.c\",100,0,0,0|t: .data|.byte 2|a: .lcomm b,1|.stabs \"s:S1\",38,0,0,a|.stabs \"t:S1\",40,0,0,b|.stabs \"u:1\",128,0,0,5|.stabn 68,0,1,t|.stabs \"\",100,0,0,t
source .byte 3|c: .data|.byte 4|d: .lcomm e,3
link 2000 ranges 0 kept 0 entries 12
has .byte 0x01,0x00,0x00,0x00,0x03,0x00,0x00,0x00
has .byte 0x02,0x00,0x00,0x00,0x04,0x00,0x00,0x00
has .stabs \"t\",4,0,0,0x00002001
has .stabs \"a\",6,0,0,0x00002009
has .stabs \"b\",8,0,0,0x00002010
has .stabs \"s:S1\",38,0,0,0x00002009
has .stabs \"t:S1\",40,0,0,0x00002010
has .stabs \"u:1\",128,0,0,0x00000005
has .stabn 68,0,1,0x00002001
has .stabs \"c\",4,0,0,0x00002005
has .stabs \"d\",6,0,0,0x0000200d
has .stabs \"e\",8,0,0,0x00002014
# relocations against each segment, and against the place of the field
order little
source .byte 1|.rel text,4,4,4|.rel text,8,6,5|.rel text,12,8,4|.rel text,16,2,4|.space 19|.data|.long 5|.bsize 4
source .byte 1|.long 1,2,3,4|.rel text,4,4,4|.rel text,8,6,5|.rel text,12,8,2|.data|.long 6|.rel data,0,4,4
link 1000 ranges 0 kept 0 entries 0
has .byte 0x01,0x00,0x00,0x00,0x00,0x10,0x00,0x00,0x14,0x00,0x00,0x00,0x18,0x10,0x00,0x00
has .byte 0x00,0x00,0x00,0x00,0x01,0x01,0x00,0x00,0x14,0x12,0x00,0x00,0x07,0x03,0x00,0x00
has .byte 0x1f,0x14,0x00,0x00,0x00,0x00,0x00,0x00
has .byte 0x05,0x00,0x00,0x00,0x1a,0x10,0x00,0x00
# fields that share bytes: each finds what the one before it left
order little
source .long 1|.long 0|.rel text,0,4,4|.rel text,1,4,4|.rel text,0,4,2
link 100 ranges 0 kept 0 entries 0
# the highest address, and one more
order little
source .space 16|.data|.byte 1
link ffffffe8 ranges 0 kept 0 entries 0
has .entry 0xffffffe8
order little
source .space 16
source .space 1
link fffffff0 refused 94 4294967295 0
# stabs outside every unit
order little
source .byte 1|.stabn 68,0,1,0
link 0 refused 50 0 0
# an object without entries, and one that ends in a directory before one that begins with a source
order little
source .byte 1
source .stabs \"a.c\",100,0,0,0|.stabs \"h.h\",130,0,0,0|.stabn 162,0,0,0|.stabs \"/d/\",100,0,0,4
source .stabs \"b.c\",100,0,0,0|.stabs \"h.h\",130,0,0,0|.stabn 162,0,0,0
link 0 ranges 2 kept 2 entries 7
has .stabs \"h.h\",130,0,0,0x00000000
has .stabs \"h.h\",130,0,0,0x00000001
# no objects
link 0 refused 95 0 0
# ---- headers merged
# two headers that name each other, in another order
order little
source .stabs \"u.c\",100,0,0,0|.stabs \"p.h\",130,0,0,0|.stabs \"p:t(1,1)=*(2,1)\",128,0,0,0|.stabn 162,0,0,0|.stabs \"q.h\",130,0,0,0|.stabs \"q:t(2,1)=*(1,1)\",128,0,0,0|.stabn 162,0,0,0
source .stabs \"v.c\",100,0,0,0|.stabs \"q.h\",130,0,0,0|.stabs \"q:t(1,1)=*(2,1)\",128,0,0,0|.stabn 162,0,0,0|.stabs \"p.h\",130,0,0,0|.stabs \"p:t(2,1)=*(1,1)\",128,0,0,0|.stabn 162,0,0,0
merge 0 ranges 4 kept 2 entries 10
has .stabs \"p.h\",130,0,0,0x000002e1
has .stabs \"q.h\",130,0,0,0x000002e2
has .stabs \"q.h\",194,0,0,0x000002e2
has .stabs \"p.h\",194,0,0,0x000002e1
# one name and one sum, and numbers that name other headers
order little
source .stabs \"u.c\",100,0,0,0|.stabs \"int:t(0,1)=r(0,1);-2147483648;2147483647;\",128,0,0,0|.stabs \"a.h\",130,0,0,0|.stabs \"a:t(1,1)=(0,1)\",128,0,0,0|.stabn 162,0,0,0|.stabs \"h.h\",130,0,0,0|.stabs \"h:t(2,1)=*(1,1)\",128,0,0,0|.stabn 162,0,0,0
source .stabs \"v.c\",100,0,0,0|.stabs \"int:t(0,1)=r(0,1);-2147483648;2147483647;\",128,0,0,0|.stabs \"b.h\",130,0,0,0|.stabs \"b:t(1,1)=*(0,1)\",128,0,0,0|.stabn 162,0,0,0|.stabs \"h.h\",130,0,0,0|.stabs \"h:t(2,1)=*(1,1)\",128,0,0,0|.stabn 162,0,0,0
merge 0 ranges 4 kept 4 entries 16
has .stabs \"a.h\",130,0,0,0x000002a8
has .stabs \"h.h\",130,0,0,0x000002d9
has .stabs \"b.h\",130,0,0,0x000002d3
has .stabs \"h.h\",130,0,0,0x000002da
# a chain of ten headers, the last of which differs: none goes
order little
source .stabs \"u.c\",100,0,0,0|.stabs \"int:t(0,1)=r(0,1);-2147483648;2147483647;\",128,0,0,0|.stabs \"c0.h\",130,0,0,0|.stabs \"c0:t(1,1)=*(2,1)\",128,0,0,0|.stabn 162,0,0,0|.stabs \"c1.h\",130,0,0,0|.stabs \"c1:t(2,1)=*(3,1)\",128,0,0,0|.stabn 162,0,0,0|.stabs \"c2.h\",130,0,0,0|.stabs \"c2:t(3,1)=*(4,1)\",128,0,0,0|.stabn 162,0,0,0|.stabs \"c3.h\",130,0,0,0|.stabs \"c3:t(4,1)=*(5,1)\",128,0,0,0|.stabn 162,0,0,0|.stabs \"c4.h\",130,0,0,0|.stabs \"c4:t(5,1)=*(6,1)\",128,0,0,0|.stabn 162,0,0,0|.stabs \"c5.h\",130,0,0,0|.stabs \"c5:t(6,1)=*(7,1)\",128,0,0,0|.stabn 162,0,0,0|.stabs \"c6.h\",130,0,0,0|.stabs \"c6:t(7,1)=*(8,1)\",128,0,0,0|.stabn 162,0,0,0|.stabs \"c7.h\",130,0,0,0|.stabs \"c7:t(8,1)=*(9,1)\",128,0,0,0|.stabn 162,0,0,0|.stabs \"c8.h\",130,0,0,0|.stabs \"c8:t(9,1)=*(10,1)\",128,0,0,0|.stabn 162,0,0,0|.stabs \"c9.h\",130,0,0,0|.stabs \"c9:t(10,1)=(0,1)\",128,0,0,0|.stabn 162,0,0,0
source .stabs \"v.c\",100,0,0,0|.stabs \"int:t(0,1)=r(0,1);-2147483648;2147483647;\",128,0,0,0|.stabs \"c0.h\",130,0,0,0|.stabs \"c0:t(1,1)=*(2,1)\",128,0,0,0|.stabn 162,0,0,0|.stabs \"c1.h\",130,0,0,0|.stabs \"c1:t(2,1)=*(3,1)\",128,0,0,0|.stabn 162,0,0,0|.stabs \"c2.h\",130,0,0,0|.stabs \"c2:t(3,1)=*(4,1)\",128,0,0,0|.stabn 162,0,0,0|.stabs \"c3.h\",130,0,0,0|.stabs \"c3:t(4,1)=*(5,1)\",128,0,0,0|.stabn 162,0,0,0|.stabs \"c4.h\",130,0,0,0|.stabs \"c4:t(5,1)=*(6,1)\",128,0,0,0|.stabn 162,0,0,0|.stabs \"c5.h\",130,0,0,0|.stabs \"c5:t(6,1)=*(7,1)\",128,0,0,0|.stabn 162,0,0,0|.stabs \"c6.h\",130,0,0,0|.stabs \"c6:t(7,1)=*(8,1)\",128,0,0,0|.stabn 162,0,0,0|.stabs \"c7.h\",130,0,0,0|.stabs \"c7:t(8,1)=*(9,1)\",128,0,0,0|.stabn 162,0,0,0|.stabs \"c8.h\",130,0,0,0|.stabs \"c8:t(9,1)=*(10,1)\",128,0,0,0|.stabn 162,0,0,0|.stabs \"c9.h\",130,0,0,0|.stabs \"c9:t(10,1)=*(0,1)\",128,0,0,0|.stabn 162,0,0,0
merge 0 ranges 20 kept 20 entries 64
has .stabs \"c0.h\",130,0,0,0x00000304
has .stabs \"c1.h\",130,0,0,0x00000305
has .stabs \"c2.h\",130,0,0,0x00000306
has .stabs \"c3.h\",130,0,0,0x00000307
has .stabs \"c4.h\",130,0,0,0x00000308
has .stabs \"c5.h\",130,0,0,0x00000309
has .stabs \"c6.h\",130,0,0,0x0000030a
has .stabs \"c7.h\",130,0,0,0x0000030b
has .stabs \"c8.h\",130,0,0,0x0000030c
has .stabs \"c9.h\",130,0,0,0x000002e3
has .stabs \"c0.h\",130,0,0,0x00000305
has .stabs \"c1.h\",130,0,0,0x00000306
has .stabs \"c2.h\",130,0,0,0x00000307
has .stabs \"c3.h\",130,0,0,0x00000308
has .stabs \"c4.h\",130,0,0,0x00000309
has .stabs \"c5.h\",130,0,0,0x0000030a
has .stabs \"c6.h\",130,0,0,0x0000030b
has .stabs \"c7.h\",130,0,0,0x0000030c
has .stabs \"c8.h\",130,0,0,0x0000030d
has .stabs \"c9.h\",130,0,0,0x0000030d
# the same chain twice: all go
order little
source .stabs \"u.c\",100,0,0,0|.stabs \"int:t(0,1)=r(0,1);-2147483648;2147483647;\",128,0,0,0|.stabs \"c0.h\",130,0,0,0|.stabs \"c0:t(1,1)=*(2,1)\",128,0,0,0|.stabn 162,0,0,0|.stabs \"c1.h\",130,0,0,0|.stabs \"c1:t(2,1)=*(3,1)\",128,0,0,0|.stabn 162,0,0,0|.stabs \"c2.h\",130,0,0,0|.stabs \"c2:t(3,1)=*(4,1)\",128,0,0,0|.stabn 162,0,0,0|.stabs \"c3.h\",130,0,0,0|.stabs \"c3:t(4,1)=*(5,1)\",128,0,0,0|.stabn 162,0,0,0|.stabs \"c4.h\",130,0,0,0|.stabs \"c4:t(5,1)=*(6,1)\",128,0,0,0|.stabn 162,0,0,0|.stabs \"c5.h\",130,0,0,0|.stabs \"c5:t(6,1)=*(7,1)\",128,0,0,0|.stabn 162,0,0,0|.stabs \"c6.h\",130,0,0,0|.stabs \"c6:t(7,1)=*(8,1)\",128,0,0,0|.stabn 162,0,0,0|.stabs \"c7.h\",130,0,0,0|.stabs \"c7:t(8,1)=*(9,1)\",128,0,0,0|.stabn 162,0,0,0|.stabs \"c8.h\",130,0,0,0|.stabs \"c8:t(9,1)=*(10,1)\",128,0,0,0|.stabn 162,0,0,0|.stabs \"c9.h\",130,0,0,0|.stabs \"c9:t(10,1)=(0,1)\",128,0,0,0|.stabn 162,0,0,0
source .stabs \"v.c\",100,0,0,0|.stabs \"int:t(0,1)=r(0,1);-2147483648;2147483647;\",128,0,0,0|.stabs \"c0.h\",130,0,0,0|.stabs \"c0:t(1,1)=*(2,1)\",128,0,0,0|.stabn 162,0,0,0|.stabs \"c1.h\",130,0,0,0|.stabs \"c1:t(2,1)=*(3,1)\",128,0,0,0|.stabn 162,0,0,0|.stabs \"c2.h\",130,0,0,0|.stabs \"c2:t(3,1)=*(4,1)\",128,0,0,0|.stabn 162,0,0,0|.stabs \"c3.h\",130,0,0,0|.stabs \"c3:t(4,1)=*(5,1)\",128,0,0,0|.stabn 162,0,0,0|.stabs \"c4.h\",130,0,0,0|.stabs \"c4:t(5,1)=*(6,1)\",128,0,0,0|.stabn 162,0,0,0|.stabs \"c5.h\",130,0,0,0|.stabs \"c5:t(6,1)=*(7,1)\",128,0,0,0|.stabn 162,0,0,0|.stabs \"c6.h\",130,0,0,0|.stabs \"c6:t(7,1)=*(8,1)\",128,0,0,0|.stabn 162,0,0,0|.stabs \"c7.h\",130,0,0,0|.stabs \"c7:t(8,1)=*(9,1)\",128,0,0,0|.stabn 162,0,0,0|.stabs \"c8.h\",130,0,0,0|.stabs \"c8:t(9,1)=*(10,1)\",128,0,0,0|.stabn 162,0,0,0|.stabs \"c9.h\",130,0,0,0|.stabs \"c9:t(10,1)=(0,1)\",128,0,0,0|.stabn 162,0,0,0
merge 0 ranges 20 kept 10 entries 44
has .stabs \"c0.h\",130,0,0,0x00000304
has .stabs \"c1.h\",130,0,0,0x00000305
has .stabs \"c2.h\",130,0,0,0x00000306
has .stabs \"c3.h\",130,0,0,0x00000307
has .stabs \"c4.h\",130,0,0,0x00000308
has .stabs \"c5.h\",130,0,0,0x00000309
has .stabs \"c6.h\",130,0,0,0x0000030a
has .stabs \"c7.h\",130,0,0,0x0000030b
has .stabs \"c8.h\",130,0,0,0x0000030c
has .stabs \"c9.h\",130,0,0,0x000002e3
has .stabs \"c0.h\",194,0,0,0x00000304
has .stabs \"c1.h\",194,0,0,0x00000305
has .stabs \"c2.h\",194,0,0,0x00000306
has .stabs \"c3.h\",194,0,0,0x00000307
has .stabs \"c4.h\",194,0,0,0x00000308
has .stabs \"c5.h\",194,0,0,0x00000309
has .stabs \"c6.h\",194,0,0,0x0000030a
has .stabs \"c7.h\",194,0,0,0x0000030b
has .stabs \"c8.h\",194,0,0,0x0000030c
has .stabs \"c9.h\",194,0,0,0x000002e3
# a ring of three headers, in three orders
order little
source .stabs \"u.c\",100,0,0,0|.stabs \"x.h\",130,0,0,0|.stabs \"x:t(1,1)=*(2,1)\",128,0,0,0|.stabn 162,0,0,0|.stabs \"y.h\",130,0,0,0|.stabs \"y:t(2,1)=*(3,1)\",128,0,0,0|.stabn 162,0,0,0|.stabs \"z.h\",130,0,0,0|.stabs \"z:t(3,1)=*(1,1)\",128,0,0,0|.stabn 162,0,0,0
source .stabs \"v.c\",100,0,0,0|.stabs \"z.h\",130,0,0,0|.stabs \"z:t(1,1)=*(2,1)\",128,0,0,0|.stabn 162,0,0,0|.stabs \"x.h\",130,0,0,0|.stabs \"x:t(2,1)=*(3,1)\",128,0,0,0|.stabn 162,0,0,0|.stabs \"y.h\",130,0,0,0|.stabs \"y:t(3,1)=*(1,1)\",128,0,0,0|.stabn 162,0,0,0
source .stabs \"w.c\",100,0,0,0|.stabs \"y.h\",130,0,0,0|.stabs \"y:t(1,1)=*(3,1)\",128,0,0,0|.stabn 162,0,0,0|.stabs \"x.h\",130,0,0,0|.stabs \"x:t(2,1)=*(1,1)\",128,0,0,0|.stabn 162,0,0,0|.stabs \"z.h\",130,0,0,0|.stabs \"z:t(3,1)=*(2,1)\",128,0,0,0|.stabn 162,0,0,0
merge 0 ranges 9 kept 3 entries 18
has .stabs \"x.h\",130,0,0,0x000002e9
has .stabs \"y.h\",130,0,0,0x000002ea
has .stabs \"z.h\",130,0,0,0x000002eb
has .stabs \"z.h\",194,0,0,0x000002eb
has .stabs \"x.h\",194,0,0,0x000002e9
has .stabs \"y.h\",194,0,0,0x000002ea
has .stabs \"y.h\",194,0,0,0x000002ea
has .stabs \"x.h\",194,0,0,0x000002e9
has .stabs \"z.h\",194,0,0,0x000002eb
# a ring of three, one of which has another type in the third unit: of that unit none goes
order little
source .stabs \"u.c\",100,0,0,0|.stabs \"x.h\",130,0,0,0|.stabs \"x:t(1,1)=*(2,1)\",128,0,0,0|.stabn 162,0,0,0|.stabs \"y.h\",130,0,0,0|.stabs \"y:t(2,1)=*(3,1)\",128,0,0,0|.stabn 162,0,0,0|.stabs \"z.h\",130,0,0,0|.stabs \"z:t(3,1)=*(1,1)\",128,0,0,0|.stabn 162,0,0,0
source .stabs \"v.c\",100,0,0,0|.stabs \"y.h\",130,0,0,0|.stabs \"y:t(1,1)=*(2,1)\",128,0,0,0|.stabn 162,0,0,0|.stabs \"z.h\",130,0,0,0|.stabs \"z:t(2,1)=*(3,1)\",128,0,0,0|.stabn 162,0,0,0|.stabs \"x.h\",130,0,0,0|.stabs \"x:t(3,1)=*(1,1)\",128,0,0,0|.stabn 162,0,0,0
source .stabs \"w.c\",100,0,0,0|.stabs \"x.h\",130,0,0,0|.stabs \"x:t(1,1)=*(2,1)\",128,0,0,0|.stabn 162,0,0,0|.stabs \"y.h\",130,0,0,0|.stabs \"y:t(2,1)=*(3,1)\",128,0,0,0|.stabn 162,0,0,0|.stabs \"z.h\",130,0,0,0|.stabs \"z:t(3,1)=k(1,1)\",128,0,0,0|.stabn 162,0,0,0
merge 0 ranges 9 kept 6 entries 24
has .stabs \"x.h\",130,0,0,0x000002e9
has .stabs \"y.h\",130,0,0,0x000002ea
has .stabs \"z.h\",130,0,0,0x000002eb
has .stabs \"y.h\",194,0,0,0x000002ea
has .stabs \"z.h\",194,0,0,0x000002eb
has .stabs \"x.h\",194,0,0,0x000002e9
has .stabs \"x.h\",130,0,0,0x000002ea
has .stabs \"y.h\",130,0,0,0x000002eb
has .stabs \"z.h\",130,0,0,0x0000032c
# equal texts over other headers at one place of a structure each: the third is as the first
order little
source .stabs \"u.c\",100,0,0,0|.stabs \"a.h\",130,0,0,0|.stabs \"a:t(1,1)=r(1,1);0;1;\",128,0,0,0|.stabn 162,0,0,0|.stabs \"b.h\",130,0,0,0|.stabs \"b:t(2,1)=r(2,1);0;2;\",128,0,0,0|.stabn 162,0,0,0|.stabs \"s.h\",130,0,0,0|.stabs \"s:T(3,1)=s8a:(1,1),0,32;b:(2,1),32,32;;\",128,0,0,0|.stabn 162,0,0,0
source .stabs \"v.c\",100,0,0,0|.stabs \"a.h\",130,0,0,0|.stabs \"a:t(1,1)=r(1,1);0;1;\",128,0,0,0|.stabn 162,0,0,0|.stabs \"b.h\",130,0,0,0|.stabs \"b:t(2,1)=r(2,1);0;2;\",128,0,0,0|.stabn 162,0,0,0|.stabs \"s.h\",130,0,0,0|.stabs \"s:T(3,1)=s8a:(1,1),0,32;b:(1,1),32,32;;\",128,0,0,0|.stabn 162,0,0,0
source .stabs \"w.c\",100,0,0,0|.stabs \"b.h\",130,0,0,0|.stabs \"b:t(1,1)=r(1,1);0;2;\",128,0,0,0|.stabn 162,0,0,0|.stabs \"a.h\",130,0,0,0|.stabs \"a:t(2,1)=r(2,1);0;1;\",128,0,0,0|.stabn 162,0,0,0|.stabs \"s.h\",130,0,0,0|.stabs \"s:T(3,1)=s8a:(2,1),0,32;b:(1,1),32,32;;\",128,0,0,0|.stabn 162,0,0,0
merge 0 ranges 9 kept 4 entries 20
has .stabs \"a.h\",130,0,0,0x0000042c
has .stabs \"b.h\",130,0,0,0x0000042e
has .stabs \"s.h\",130,0,0,0x000007ea
has .stabs \"a.h\",194,0,0,0x0000042c
has .stabs \"b.h\",194,0,0,0x0000042e
has .stabs \"s.h\",130,0,0,0x000007eb
has .stabs \"b.h\",194,0,0,0x0000042e
has .stabs \"a.h\",194,0,0,0x0000042c
has .stabs \"s.h\",194,0,0,0x000007ea
# plain numbers stay in the shape
order little
source .stabs \"u.c\",100,0,0,0|.stabs \"h.h\",130,0,0,0|.stabs \"h:t(1,1)=*7\",128,0,0,0|.stabn 162,0,0,0
source .stabs \"v.c\",100,0,0,0|.stabs \"h.h\",130,0,0,0|.stabs \"h:t(1,1)=*7\",128,0,0,0|.stabn 162,0,0,0
source .stabs \"w.c\",100,0,0,0|.stabs \"h.h\",130,0,0,0|.stabs \"h:t(1,1)=*8\",128,0,0,0|.stabn 162,0,0,0
merge 0 ranges 3 kept 2 entries 10
has .stabs \"h.h\",130,0,0,0x00000262
has .stabs \"h.h\",194,0,0,0x00000262
has .stabs \"h.h\",130,0,0,0x00000263
# an empty range
order little
source .stabs \"u.c\",100,0,0,0|.stabs \"e.h\",130,0,0,0|.stabn 162,0,0,0
source .stabs \"v.c\",100,0,0,0|.stabs \"e.h\",130,0,0,0|.stabn 162,0,0,0
merge 0 ranges 2 kept 1 entries 5
has .stabs \"e.h\",130,0,0,0x00000000
has .stabs \"e.h\",194,0,0,0x00000000
# a number that names no header
order little
source .stabs \"u.c\",100,0,0,0|.stabs \"h.h\",130,0,0,0|.stabs \"h:t(1,1)=*(5,1)\",128,0,0,0|.stabn 162,0,0,0
source .stabs \"v.c\",100,0,0,0|.stabs \"h.h\",130,0,0,0|.stabs \"h:t(1,1)=*(5,1)\",128,0,0,0|.stabn 162,0,0,0
merge 0 ranges 2 kept 2 entries 8
has .stabs \"h.h\",130,0,0,0x000002d9
has .stabs \"h.h\",130,0,0,0x000002da
# equal names in three units of which two are alike
order little
source .stabs \"u.c\",100,0,0,0|.stabs \"int:t(0,1)=r(0,1);-2147483648;2147483647;\",128,0,0,0|.stabs \"h.h\",130,0,0,0|.stabs \"h:t(1,1)=(0,1)\",128,0,0,0|.stabn 162,0,0,0
source .stabs \"v.c\",100,0,0,0|.stabs \"int:t(0,1)=r(0,1);-2147483648;2147483647;\",128,0,0,0|.stabs \"h.h\",130,0,0,0|.stabs \"h:t(1,1)=*(0,1)\",128,0,0,0|.stabn 162,0,0,0
source .stabs \"w.c\",100,0,0,0|.stabs \"int:t(0,1)=r(0,1);-2147483648;2147483647;\",128,0,0,0|.stabs \"h.h\",130,0,0,0|.stabs \"h:t(1,1)=*(0,1)\",128,0,0,0|.stabn 162,0,0,0
merge 0 ranges 3 kept 2 entries 13
has .stabs \"h.h\",130,0,0,0x000002af
has .stabs \"h.h\",130,0,0,0x000002d9
has .stabs \"h.h\",194,0,0,0x000002d9
# a range that holds a line, inside one that goes
order little
source .long 0|.stabs \"u.c\",100,0,0,0|.stabs \"int:t(0,1)=r(0,1);-2147483648;2147483647;\",128,0,0,0|.stabs \"o.h\",130,0,0,0|.stabs \"o:t(1,1)=(0,1)\",128,0,0,0|.stabs \"n.h\",130,0,0,0|.stabn 68,0,9,0|.stabn 162,0,0,0|.stabn 162,0,0,0
source .long 0|.stabs \"v.c\",100,0,0,0|.stabs \"int:t(0,1)=r(0,1);-2147483648;2147483647;\",128,0,0,0|.stabs \"o.h\",130,0,0,0|.stabs \"o:t(1,1)=(0,1)\",128,0,0,0|.stabs \"n.h\",130,0,0,0|.stabn 68,0,9,0|.stabn 162,0,0,0|.stabn 162,0,0,0
merge 0 ranges 4 kept 3 entries 14
has .stabs \"o.h\",130,0,0,0x000002b6
has .stabs \"n.h\",130,0,0,0x00000000
has .stabs \"o.h\",194,0,0,0x000002b6
has .stabs \"n.h\",130,0,0,0x00000001
has .stabn 68,0,9,0x00000004
# a range that holds a variable
order little
source .stabs \"u.c\",100,0,0,0|.stabs \"int:t(0,1)=r(0,1);-2147483648;2147483647;\",128,0,0,0|.stabs \"v.h\",130,0,0,0|.stabs \"x:G(0,1)\",32,0,0,0|.stabn 162,0,0,0
source .stabs \"v.c\",100,0,0,0|.stabs \"int:t(0,1)=r(0,1);-2147483648;2147483647;\",128,0,0,0|.stabs \"v.h\",130,0,0,0|.stabs \"x:G(0,1)\",32,0,0,0|.stabn 162,0,0,0
merge 0 ranges 2 kept 2 entries 10
has .stabs \"v.h\",130,0,0,0x000001a7
has .stabs \"v.h\",130,0,0,0x000001a8
# a header that one unit has twice
order little
source .stabs \"u.c\",100,0,0,0|.stabs \"int:t(0,1)=r(0,1);-2147483648;2147483647;\",128,0,0,0|.stabs \"h.h\",130,0,0,0|.stabs \"h:t(1,1)=(0,1)\",128,0,0,0|.stabn 162,0,0,0|.stabs \"h.h\",130,0,0,0|.stabs \"h:t(2,1)=(0,1)\",128,0,0,0|.stabn 162,0,0,0
source .stabs \"v.c\",100,0,0,0|.stabs \"int:t(0,1)=r(0,1);-2147483648;2147483647;\",128,0,0,0|.stabs \"h.h\",130,0,0,0|.stabs \"h:t(1,1)=(0,1)\",128,0,0,0|.stabn 162,0,0,0
merge 0 ranges 3 kept 3 entries 13
has .stabs \"h.h\",130,0,0,0x000002af
has .stabs \"h.h\",130,0,0,0x000002b0
has .stabs \"h.h\",130,0,0,0x000002b1
# equal sums and other shapes: the second has the next instance, and the third goes
order little
source .stabs \"u0.c\",100,0,0,0|.stabs \"int:t(0,1)=r(0,1);-2147483648;2147483647;\",128,0,0,0|.stabs \"s.h\",130,0,0,0|.stabs \"s:T(1,1)=s8ab:(0,1),0,32;ba:(0,1),32,32;;\",128,0,0,0|.stabn 162,0,0,0
source .stabs \"u1.c\",100,0,0,0|.stabs \"int:t(0,1)=r(0,1);-2147483648;2147483647;\",128,0,0,0|.stabs \"s.h\",130,0,0,0|.stabs \"s:T(1,1)=s8ba:(0,1),0,32;ab:(0,1),32,32;;\",128,0,0,0|.stabn 162,0,0,0
source .stabs \"u2.c\",100,0,0,0|.stabs \"int:t(0,1)=r(0,1);-2147483648;2147483647;\",128,0,0,0|.stabs \"s.h\",130,0,0,0|.stabs \"s:T(1,1)=s8ba:(0,1),0,32;ab:(0,1),32,32;;\",128,0,0,0|.stabn 162,0,0,0
merge 0 ranges 3 kept 2 entries 13
has .stabs \"s.h\",130,0,0,0x000008ad
has .stabs \"s.h\",130,0,0,0x000008ae
has .stabs \"s.h\",194,0,0,0x000008ae
# a continued string, and an entry that is no stab in a range that goes
order little
source .stabs \"u.c\",100,0,0,0|.stabs \"int:t(0,1)=r(0,1);-2147483648;2147483647;\",128,0,0,0|.stabs \"h.h\",130,0,0,0|.stabs \"h:t(1,1)=*\\\\\",128,0,0,0|.stabs \"(0,1)\",128,0,0,0|.stabs \"_ku\",3,0,0,1|.stabn 162,0,0,0
source .stabs \"v.c\",100,0,0,0|.stabs \"int:t(0,1)=r(0,1);-2147483648;2147483647;\",128,0,0,0|.stabs \"h.h\",130,0,0,0|.stabs \"h:t(1,1)=*\\\\\",128,0,0,0|.stabs \"(0,1)\",128,0,0,0|.stabs \"_kv\",3,0,0,1|.stabn 162,0,0,0
merge 0 ranges 2 kept 1 entries 11
has .stabs \"h.h\",130,0,0,0x000002d9
has .stabs \"h.h\",194,0,0,0x000002d9
# an excluded header in an object
order little
source .stabs \"u.c\",100,0,0,0|.stabs \"h.h\",194,0,0,5
merge 0 refused 55 1 0
# both byte orders
order big
source .stabs \"u.c\",100,0,0,0|.stabs \"int:t(0,1)=r(0,1);-2147483648;2147483647;\",128,0,0,0|.stabs \"h.h\",130,0,0,0|.stabs \"h:t(1,1)=(0,1)\",128,0,0,0|.stabn 162,0,0,0
source .stabs \"v.c\",100,0,0,0|.stabs \"int:t(0,1)=r(0,1);-2147483648;2147483647;\",128,0,0,0|.stabs \"h.h\",130,0,0,0|.stabs \"h:t(1,1)=(0,1)\",128,0,0,0|.stabn 162,0,0,0
merge 1000 ranges 2 kept 1 entries 8
has .stabs \"h.h\",130,0,0,0x000002af
has .stabs \"h.h\",194,0,0,0x000002af
rows 45
";
