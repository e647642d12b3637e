/// Rows of `link`: its words, and what is placed and relocated. Expected lines are worked by hand, and in part come from a model of the
/// rules that was written apart from the program.
pub const ROWS: &[u8] = b"
# ---- linking
# a mode is missing
run link
> usage: word 1
ends 2
# other modes
run link kept 0x0 out a.o
> usage: word 1
ends 2
run link sum 0x0 out a.o
> usage: word 1
ends 2
# a mode that is not UTF-8
run link \xff 0x0 out a.o
> usage: word 1
ends 2
# an address is missing behind the other mode
run link merge
> usage: word 2
ends 2
# an address is missing
run link keep
> usage: word 2
ends 2
# an address that is no multiple of 4
run link keep 0x1002 out a.o
> usage: word 2
ends 2
# digits without 0x
run link keep 1000 out a.o
> usage: word 2
ends 2
# 0x without digits
run link keep 0x out a.o
> usage: word 2
ends 2
# nine digits
run link keep 0x123456789 out a.o
> usage: word 2
ends 2
# OUT is missing
run link keep 0x0
> usage: word 3
ends 2
# an object is missing
run link keep 0x0 out
> usage: word 4
ends 2
run link merge 0x0 out
> usage: word 4
ends 2
# OUT is not UTF-8
run link keep 0x0 \xff a.o
> usage: word 3
ends 2
# the first object is not UTF-8
run link keep 0x0 out \xff
> usage: word 4
ends 2
# a later object is not UTF-8
run link keep 0x0 out a.o a.o \xff a.o
> usage: word 6
ends 2
# an object that is not there
run link keep 0x0 out gone.o
> absent gone.o
ends 5
# digits of either case
run link keep 0xABcC out gone.o
> absent gone.o
ends 5
# the first that is not there is told
run link keep 0x0 out a.o gone.o lost.o
> absent gone.o
ends 5
# a load that fails
files 0
run link keep 0x0 out gone.o
> read fault gone.o
ends 6
files 1
run link keep 0x0 out a.o gone.o
> read fault gone.o
ends 6
# too many names are told before any is loaded
many 1025 gone.o link keep 0x0 out
> limit 1024
ends 9
many 1024 gone.o link keep 0x0 out
> absent gone.o
ends 5
# likewise where headers are merged
run link merge 0x0 out gone.o
> absent gone.o
ends 5
files 1
run link merge 0x0 out a.o gone.o
> read fault gone.o
ends 6
many 1025 gone.o link merge 0x0 out
> limit 1024
ends 9

# a name that nothing defines
little .long _gone
keep u.o out.o
run link keep 0x0 out u.o
> list 92 0 0 _gone
lacks out
ends 4
# a name that two objects define
little .globl _f|_f:
keep f.o out.o
run link keep 0x0 out f.o f.o
> list 93 1 0 _f
ends 4
# a sum that does not fit its field
little .byte _x|.data|_x: .long 0
keep x.o out.o
run link keep 0x1000 out x.o
> list 25 0 0
ends 4
# a byte from -128 to 255
little .byte _a|.stabs \"_a\",3,0,0,255
keep v0.o out.o
run link keep 0x1000 out v0.o
> ranges 0 kept 0 entries 2
ends 0
keep image.o out
run dump image.o
has 00001000 ff000000
# a byte from -128 to 255
little .byte _a|.stabs \"_a\",3,0,0,0xffffff80
keep v1.o out.o
run link keep 0x1000 out v1.o
> ranges 0 kept 0 entries 2
ends 0
keep image.o out
run dump image.o
has 00001000 80000000
# a byte past its range
little .byte _a|.stabs \"_a\",3,0,0,256
keep v2.o out.o
run link keep 0x1000 out v2.o
> list 25 0 0
ends 4
# a byte past its range
little .byte _a|.stabs \"_a\",3,0,0,0xffffff7f
keep v3.o out.o
run link keep 0x1000 out v3.o
> list 25 0 0
ends 4
# bss may end at the greatest address, and not behind it
little .long 0
keep l.o out.o
run link keep 0xfffffff8 out l.o
> ranges 0 kept 0 entries 0
ends 0
run link keep 0xfffffffc out l.o
> limit 4294967295
ends 9
# two byte orders
big .long 0
keep b.o out.o
run link keep 0x0 out l.o b.o
> list 90 1 0
ends 4
# two machine words
little .machine 2|.long 0
keep m.o out.o
run link keep 0x0 out l.o m.o
> list 91 1 0
ends 4
# a string that spells no symbol
little .stabs \"x.c\",100,0,0,0|.stabs \"x:t(0\",128,0,0,0
keep w.o out.o
run link keep 0x0 out l.o w.o
> refused w.o 41 1 5
ends 3
# a file that spells no object is told before units
file s.o 'abc'
run link keep 0x0 out w.o l.o s.o
> refused s.o 5 3 0
lacks out
ends 3
# a store that fails: nothing is stored
files 1
run link keep 0x0 out l.o
> write fault
lacks out
ends 7
# a put that fails, behind the store
sink 0
run link keep 0x0 out l.o
holds out 07010000040000000000000000000000000000000000000000000000000000000000000004000000
ends 7
# two units that share two headers in another order, each kept
little .stabs \"/w/\",100,0,0,Ltext0|.stabs \"a.c\",100,0,0,Ltext0|.text|Ltext0:|.stabs \"gcc2_compiled.\",60,0,0,0|.stabs \"int:t(0,1)=r(0,1);-2147483648;2147483647;\",128,0,0,0|.stabs \"stdio.h\",130,0,0,0|.stabs \"size_t:t(1,1)=(0,1)\",128,0,0,0|.stabn 162,0,0,0|.stabs \"list.h\",130,0,0,0|.stabs \"list:T(2,1)=s8val:(0,1),0,32;next:(2,2)=*(2,1),32,32;;\",128,0,0,0|.stabn 162,0,0,0|.globl _main|_main:|.stabs \"main:F(0,1)\",36,0,3,_main|.stabs \"argc:p(0,1)\",160,0,0,8|.stabn 68,0,4,LM1|LM1:|.long 0|.stabn 68,0,5,LM2|LM2:|.long _f|.stabs \"head:(0,2)=*(2,1)\",128,0,0,-4|.stabn 192,0,0,LM1-Ltext0|.stabn 224,0,0,LE-Ltext0|LE:|.comm _total,4|.stabs \"total:G(0,1)\",32,0,0,0|.stabn 100,0,0,LE
keep a1.o out.o
little .stabs \"b.c\",100,0,0,Ltext0|.text|Ltext0:|.stabs \"int:t(0,1)=r(0,1);-2147483648;2147483647;\",128,0,0,0|.stabs \"list.h\",130,0,0,0|.stabs \"list:T(1,1)=s8val:(0,1),0,32;next:(1,2)=*(1,1),32,32;;\",128,0,0,0|.stabn 162,0,0,0|.stabs \"stdio.h\",130,0,0,0|.stabs \"size_t:t(2,1)=(0,1)\",128,0,0,0|.stabn 162,0,0,0|.globl _f|_f:|.stabs \"f:F(0,1)\",36,0,7,_f|.stabn 68,0,8,LM1|LM1:|.long 0|LE:|.stabn 100,0,0,LE
keep b1.o out.o
run link keep 0x1000 out a1.o b1.o
> ranges 4 kept 4 entries 34
ends 0
keep image.o out
run query image.o units
> 0 00001000 00001008 /w/a.c
> 1 00001008 0000100c b.c
ends 0
run query image.o tag 1 list
> 3
> 0 T list s8val:#1,0,32;next:#2,32,32;;
> 1 t int r#1;-2147483648;2147483647;
> 2 - - *#0
ends 0
run query image.o line 0x1006
> /w/a.c 5 00001004
ends 0
run query image.o addresses /w/a.c 5
> 0 00001004
ends 0
run query image.o scope 0x1005
> unit 0 /w/a.c
> function main 00001000
> var p argc (0,1) 00000008
> block 00001000 00001008
> var - head (0,2)=*(2,1) fffffffc
> var G total (0,1) 0000100c
ends 0
run query image.o scope 0x2000
> none
ends 0
run dump image.o
has 00001000 000000000810000000000000
has 4 N_BINCL 00 0000 000004d5 stdio.h
has 7 N_BINCL 00 0000 00000c88 list.h
has 24 N_BINCL 00 0000 00000c89 list.h
has 27 N_BINCL 00 0000 000004d6 stdio.h
# two units that share two headers in another order, each kept
big .stabs \"/w/\",100,0,0,Ltext0|.stabs \"a.c\",100,0,0,Ltext0|.text|Ltext0:|.stabs \"gcc2_compiled.\",60,0,0,0|.stabs \"int:t(0,1)=r(0,1);-2147483648;2147483647;\",128,0,0,0|.stabs \"stdio.h\",130,0,0,0|.stabs \"size_t:t(1,1)=(0,1)\",128,0,0,0|.stabn 162,0,0,0|.stabs \"list.h\",130,0,0,0|.stabs \"list:T(2,1)=s8val:(0,1),0,32;next:(2,2)=*(2,1),32,32;;\",128,0,0,0|.stabn 162,0,0,0|.globl _main|_main:|.stabs \"main:F(0,1)\",36,0,3,_main|.stabs \"argc:p(0,1)\",160,0,0,8|.stabn 68,0,4,LM1|LM1:|.long 0|.stabn 68,0,5,LM2|LM2:|.long _f|.stabs \"head:(0,2)=*(2,1)\",128,0,0,-4|.stabn 192,0,0,LM1-Ltext0|.stabn 224,0,0,LE-Ltext0|LE:|.comm _total,4|.stabs \"total:G(0,1)\",32,0,0,0|.stabn 100,0,0,LE
keep a1.o out.o
big .stabs \"b.c\",100,0,0,Ltext0|.text|Ltext0:|.stabs \"int:t(0,1)=r(0,1);-2147483648;2147483647;\",128,0,0,0|.stabs \"list.h\",130,0,0,0|.stabs \"list:T(1,1)=s8val:(0,1),0,32;next:(1,2)=*(1,1),32,32;;\",128,0,0,0|.stabn 162,0,0,0|.stabs \"stdio.h\",130,0,0,0|.stabs \"size_t:t(2,1)=(0,1)\",128,0,0,0|.stabn 162,0,0,0|.globl _f|_f:|.stabs \"f:F(0,1)\",36,0,7,_f|.stabn 68,0,8,LM1|LM1:|.long 0|LE:|.stabn 100,0,0,LE
keep b1.o out.o
run link keep 0x1000 out a1.o b1.o
> ranges 4 kept 4 entries 34
ends 0
keep image.o out
run query image.o units
> 0 00001000 00001008 /w/a.c
> 1 00001008 0000100c b.c
ends 0
run query image.o tag 1 list
> 3
> 0 T list s8val:#1,0,32;next:#2,32,32;;
> 1 t int r#1;-2147483648;2147483647;
> 2 - - *#0
ends 0
run query image.o line 0x1006
> /w/a.c 5 00001004
ends 0
run query image.o addresses /w/a.c 5
> 0 00001004
ends 0
run query image.o scope 0x1005
> unit 0 /w/a.c
> function main 00001000
> var p argc (0,1) 00000008
> block 00001000 00001008
> var - head (0,2)=*(2,1) fffffffc
> var G total (0,1) 0000100c
ends 0
run query image.o scope 0x2000
> none
ends 0
run dump image.o
has 00001000 000000000000100800000000
has 4 N_BINCL 00 0000 000004d5 stdio.h
has 7 N_BINCL 00 0000 00000c88 list.h
has 24 N_BINCL 00 0000 00000c89 list.h
has 27 N_BINCL 00 0000 000004d6 stdio.h
";
