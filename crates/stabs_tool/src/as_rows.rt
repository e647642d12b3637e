/// Rows of `as` and `list`.
pub const ROWS: &[u8] = b"
# ---- assembly

# text comes first, and both segments are switched to
little .byte 1|.data|.byte 2|.text|.byte 3
has text 2 data 1 bss 0
has 00000000 0103
has 00000002 02
# fields at both ends of their ranges
little .byte -128,255,0|.short -32768,65535|.long -2147483648,4294967295
has 00000000 80ff000080ffff00000080ffffffff
bad 71 1 .byte 256
bad 71 1 .byte -129
bad 71 2 .byte 0|.short 65536
bad 71 1 .short -32769
bad 71 1 .long 4294967296
bad 71 1 .long -2147483649
# the most significant byte first
big .byte 1|.short 0x1234,-2|.long 0x12345678
has 00000000 011234fffe12345678
has order big machine 0000 entry 00000000
# numbers in three bases
little .long 10,0x1F,0xaB,017,0,00
has 00000000 0a0000001f000000ab0000000f000000
has 00000010 0000000000000000
bad 70 1 .byte 08
bad 70 1 .byte 0x
bad 70 1 .byte 0x1g
bad 70 1 .byte 0X1
bad 70 1 .byte 1a
# terms with their signs, and the place where the directive begins
little .byte 1+2-4+3,-1+3|a: .long .-a+1,.-a
has 00000000 02020100000000000000
bad 70 1 .byte +1
bad 70 1 .byte 1+
bad 70 1 .byte --1
bad 70 1 .byte 1+-1
bad 70 1 .byte 1 2
bad 70 1 .byte
bad 70 1 .byte ,1
bad 70 1 .byte 1,
bad 70 1 .byte \"a\"
# a sum counts as a whole
little .byte 300-45
has 00000000 ff
bad 71 1 .byte 4294967296-4294967296
# differences over and under zero, of a name before and of one behind
little a: .byte b-a,a-b|b:
has 00000000 02fe
has 0 04 00 0000 00000000 a
has 1 04 00 0000 00000002 b
bad 74 1 a: .byte -a
bad 74 1 a: b: .byte a+b
bad 74 1 a: .byte a+a-a
bad 74 1 a: .byte a-a-a
bad 74 3 a: .byte 0|.data|b: .long b-a
bad 74 3 a:|.lcomm b,1|.long b-a
# names that are not defined here
bad 72 1 .long a-b
bad 72 1 a: .long a-b
bad 72 1 .stabn 36,0,0,x
bad 72 1 .long Lx
bad 72 2 .comm c,4|a: .long c-a
bad 72 2 .comm c,4|.stabn 36,0,0,c
bad 72 1 .long a-b+c
# names that are defined twice
bad 73 1 a: a:
bad 73 2 a:|.comm a,4
bad 73 2 .lcomm a,4|a:
bad 73 2 .comm a,4|.comm a,4
bad 73 4 .long a|a:|.data|a:
# at one line the smallest number, else the first line; a line of no form before all
bad 71 1 a: .byte 256|a:
bad 71 1 .long Lx,4294967296
bad 72 1 .stabn 36,0,0,x|.byte 256
bad 73 1 a: a: .byte a+a
bad 70 3 .byte 256|a: a:|x y
# lines of no form
bad 70 1 .bite 1
bad 70 1 .Byte 1
bad 70 1 a
bad 70 1 :
bad 70 1 1:
bad 70 1 .text:
bad 70 1 a b:
bad 70 1 .text 1
bad 70 1 .byte 1 .byte 2
bad 70 1 .byte 1;
bad 70 1 .byte 1 / 2
bad 70 1 \"a\"
# blanks, comments and labels
little |# only|  a : b:c: .byte 1 , 2 # behind|.byte\t3#\"
has 00000000 010203
has 2 04 00 0000 00000000 c
# each escape of a string
little .ascii \"a\\\\\\\"\\n\\t\\7\\101\\1012\\377\"|.asciz \"\"|.ascii \"#:,\"|.asciz \"b\"
has 00000000 615c220a0907414132ff00233a2c6200
bad 70 1 .ascii \"\\400\"
bad 70 1 .ascii \"\\8\"
bad 70 1 .ascii \"\\x41\"
bad 70 1 .ascii \"\\r\"
bad 70 1 .ascii \"a
bad 70 1 .ascii \"a\\
bad 70 1 .ascii a
bad 70 1 .ascii
bad 70 1 .ascii \"a\",\"b\"
bad 70 1 .ascii \"a\" \"b\"
# zeros, and multiples of a power of two
little .byte 1|.p2align 2|.byte 2|.space 3|.p2align 0|.data|.p2align 12|.byte 1|.p2align 1
has text 8 data 2 bss 0
has 00000000 0100000002000000
has 00000008 0100
bad 71 1 .p2align 13
bad 71 1 .space 16777217
bad 70 1 .space -1
bad 70 1 .space 1+1
bad 70 1 .space a
bad 70 1 .p2align
bad 70 1 .p2align 1,2
# names that are seen outside: before and behind, in each segment; none of its own
little .globl a|a: b:|.globl b|.globl c|.lcomm d,1|.globl d|.data|e: .globl e
run dump out.o
> order little machine 0000 entry 00000000
> text 0 data 0 bss 1
> text
> data
> 0 05 00 0000 00000000 a
> 1 05 00 0000 00000000 b
> 2 09 00 0000 00000000 d
> 3 07 00 0000 00000000 e
ends 0
bad 70 1 .globl
bad 70 1 .globl 1
bad 70 1 .globl a,b
# names that begin with L have no entry, unless they are commons
little L1: .byte 0|a: .byte a-L1|.lcomm L2,4|.comm Lc,4|.long Lc
run dump out.o
> order little machine 0000 entry 00000000
> text 6 data 0 bss 4
> text
> 00000000 000100000000
> data
> reloc text 0 00000002 1 0 2 1
> 0 04 00 0000 00000001 a
> 1 01 00 0000 00000004 Lc
ends 0
# bss by multiples of four
little .lcomm l,3|.lcomm m,4|.long m-l
has text 4 data 0 bss 8
has 00000000 04000000
has 0 08 00 0000 00000004 l
has 1 08 00 0000 00000008 m
bad 71 1 .comm a,0
bad 71 1 .lcomm a,0
bad 71 1 .comm a,4294967296
bad 71 1 .lcomm a,4294967296
bad 70 1 .comm 1,4
bad 70 1 .comm a
bad 70 1 .comm a,4,4
bad 70 1 .comm a,-1
# a name alone is relocated: to the segment of one defined here, else to an entry; undefined names by their first use
little .byte x|.short d|.long b+1,.|t: .long t-1|.data|d: .byte 0|.lcomm b,4|.long u,x,c|.comm c,8
run dump out.o
> order little machine 0000 entry 00000000
> text 15 data 13 bss 4
> text
> 00000000 000f001d000000030000000a000000
> data
> 0000000f 00000000000000000000000000
> reloc text 0 00000000 4 0 0 1
> reloc text 1 00000001 6 0 1 0
> reloc text 2 00000003 8 0 2 0
> reloc text 3 00000007 4 0 2 0
> reloc text 4 0000000b 4 0 2 0
> reloc data 5 00000001 5 0 2 1
> reloc data 6 00000005 4 0 2 1
> reloc data 7 00000009 3 0 2 1
> 0 04 00 0000 0000000b t
> 1 06 00 0000 0000000f d
> 2 08 00 0000 0000001c b
> 3 01 00 0000 00000008 c
> 4 01 00 0000 00000000 x
> 5 01 00 0000 00000000 u
ends 0
again little
little .space 254|.byte a|a:
has reloc text 0 000000fe 4 0 0 0
bad 71 2 .space 255|.byte a|a:
bad 71 1 .byte x+256
# relocations that are written
little .rel text,0,4,0|.rel data,4294967295,16777215,13|.rel text,1,2,5
has reloc text 0 00000000 4 0 0 0
has reloc text 1 00000001 2 1 2 0
has reloc data 2 ffffffff 16777215 1 2 1
again little
big .rel text,0,8,3|.rel data,1,0,8
has reloc text 0 00000000 8 1 1 0
has reloc data 1 00000001 0 0 0 1
again big
bad 71 1 .rel text,4294967296,4,0
bad 71 1 .rel text,0,16777216,8
bad 71 1 .rel text,0,5,0
bad 71 1 .rel text,0,0,0
bad 71 1 .rel text,0,4,6
bad 71 1 .rel text,0,4,16
bad 70 1 .rel bss,0,4,0
bad 70 1 .rel text,0,4
bad 70 1 .rel text,-1,4,0
# the last of several words counts, and the greater size of bss
little .machine 5|.machine 65535|.entry 0xffffffff|.entry 0x1000|.bsize 9|.bsize 7|.lcomm a,5|.byte 0|.long a
has order little machine ffff entry 00001000
has text 5 data 0 bss 7
has 00001000 0005100000
has 0 08 00 0000 00001005 a
little .bsize 3|.lcomm a,5
has text 0 data 0 bss 5
bad 71 1 .machine 1793
bad 71 1 .machine 65536
bad 71 1 .entry 4294967296
bad 71 1 .bsize 4294967296
bad 70 1 .machine -1
# stabs with a name, without one, and at the place where they stand
little .byte 0|.stabs \"a.c\",100,1,-1,0x10|.stabn 68,0,65535,.|.stabd 68,255,-32768|.stabn 36,0,0,-4
has 0 N_SO 01 ffff 00000010 a.c
has 1 N_SLINE 00 ffff 00000001 -
has 2 N_SLINE ff 8000 00000001 -
has 3 N_FUN 00 0000 fffffffc -
little .stabn 9,255,0,-2147483648|.stabn 32,0,0,4294967295|.stabn 0,0,0,0|.stabn 255,0,0,0
has 0 09 ff 0000 80000000 -
has 1 N_GSYM 00 0000 ffffffff -
bad 71 1 .stabn 10,0,0,0
bad 71 1 .stabn 31,0,0,0
bad 71 1 .stabn 256,0,0,0
bad 71 1 .stabn -1,0,0,0
bad 71 1 .stabn 36,256,0,0
bad 71 1 .stabn 36,-1,0,0
bad 71 1 .stabn 36,0,65536,0
bad 71 1 .stabd 36,0,-32769
bad 71 1 .stabn 36,0,0,4294967296
bad 71 1 .stabn 36,0,0,-2147483649
bad 71 1 .stabs \"a\\0b\",36,0,0,0
bad 70 1 .stabn 36+0,0,0,0
bad 70 1 .stabn a,0,0,0
bad 70 1 .stabn 36,0,.,0
bad 70 1 .stabn 36,0,0
bad 70 1 .stabs 36,0,0,0
bad 70 1 .stabs \"a\",36,0,0
bad 70 1 .stabd 36,0,0,0
# the highest address, and one more
little .entry 4294967294|.byte 1|a:
has 0 04 00 0000 ffffffff a
source .entry 4294967295|.byte 1
run as little in.s z.o
> limit 4294967295
lacks z.o
ends 9
source .lcomm a,4294967295|.lcomm b,4294967295
run as little in.s z.o
> limit 4294967295
ends 9
# the most bytes of a file: told before any are made
source .space 16777216|.space 16777216|.space 16777216|.space 16777216|.space 16777216|.space 16777216|.space 16777216|.space 16777216
run as little in.s z.o
> limit 134217728
lacks z.o
ends 9
# of the two the address is told
source .bsize 4294967295|.space 16777216|.space 16777216|.space 16777216|.space 16777216|.space 16777216|.space 16777216|.space 16777216|.space 16777216
run as little in.s z.o
> limit 4294967295
ends 9
# what a compiler writes, in both orders: the objects of the questions
little .stabs \"/w/\",100,0,0,Ltext0|.stabs \"a.c\",100,0,0,Ltext0|.text|Ltext0:|.stabs \"gcc2_compiled.\",60,0,0,0|.stabs \"int:t(0,1)=r(0,1);-2147483648;2147483647;\",128,0,0,0|.stabs \"stdio.h\",130,0,0,0|.stabs \"size_t:t(1,1)=(0,1)\",128,0,0,0|.stabn 162,0,0,0|.stabs \"list.h\",130,0,0,0|.stabs \"list:T(2,1)=s8val:(0,1),0,32;next:(2,2)=*(2,1),32,32;;\",128,0,0,0|.stabn 162,0,0,0|.globl _main|_main:|.stabs \"main:F(0,1)\",36,0,3,_main|.stabs \"argc:p(0,1)\",160,0,0,8|.stabn 68,0,4,LM1|LM1:|.long 0|.stabn 68,0,5,LM2|LM2:|.long _f|.stabs \"head:(0,2)=*(2,1)\",128,0,0,-4|.stabn 192,0,0,LM1-Ltext0|.stabn 224,0,0,LE-Ltext0|LE:|.comm _total,4|.stabs \"total:G(0,1)\",32,0,0,0|.stabn 100,0,0,LE
has 0 N_SO 00 0000 00000000 /w/
has 15 N_LSYM 00 0000 fffffffc head:(0,2)=*(2,1)
has 16 N_LBRAC 00 0000 00000000 -
has 17 N_RBRAC 00 0000 00000008 -
has reloc text 0 00000004 21 0 2 1
has 21 01 00 0000 00000000 _f
again little
run query out.o scope 0x5
> unit 0 /w/a.c
> function main 00000000
> var p argc (0,1) 00000008
> block 00000000 00000008
> var - head (0,2)=*(2,1) fffffffc
> var G total (0,1) -
ends 0
big .stabs \"/w/\",100,0,0,Ltext0|.stabs \"a.c\",100,0,0,Ltext0|.text|Ltext0:|.stabs \"gcc2_compiled.\",60,0,0,0|.stabs \"int:t(0,1)=r(0,1);-2147483648;2147483647;\",128,0,0,0|.stabs \"stdio.h\",130,0,0,0|.stabs \"size_t:t(1,1)=(0,1)\",128,0,0,0|.stabn 162,0,0,0|.stabs \"list.h\",130,0,0,0|.stabs \"list:T(2,1)=s8val:(0,1),0,32;next:(2,2)=*(2,1),32,32;;\",128,0,0,0|.stabn 162,0,0,0|.globl _main|_main:|.stabs \"main:F(0,1)\",36,0,3,_main|.stabs \"argc:p(0,1)\",160,0,0,8|.stabn 68,0,4,LM1|LM1:|.long 0|.stabn 68,0,5,LM2|LM2:|.long _f|.stabs \"head:(0,2)=*(2,1)\",128,0,0,-4|.stabn 192,0,0,LM1-Ltext0|.stabn 224,0,0,LE-Ltext0|LE:|.comm _total,4|.stabs \"total:G(0,1)\",32,0,0,0|.stabn 100,0,0,LE
has 10 05 00 0000 00000000 _main
has reloc text 0 00000004 21 0 2 1
again big
run query out.o line 0x6
> /w/a.c 5 00000004
ends 0
little .stabs \"b.c\",100,0,0,Ltext0|.text|Ltext0:|.stabs \"int:t(0,1)=r(0,1);-2147483648;2147483647;\",128,0,0,0|.stabs \"list.h\",130,0,0,0|.stabs \"list:T(1,1)=s8val:(0,1),0,32;next:(1,2)=*(1,1),32,32;;\",128,0,0,0|.stabn 162,0,0,0|.stabs \"stdio.h\",130,0,0,0|.stabs \"size_t:t(2,1)=(0,1)\",128,0,0,0|.stabn 162,0,0,0|.globl _f|_f:|.stabs \"f:F(0,1)\",36,0,7,_f|.stabn 68,0,8,LM1|LM1:|.long 0|LE:|.stabn 100,0,0,LE
has 11 N_SO 00 0000 00000004 -
again little
run query out.o tag 0 list
> 3
> 0 T list s8val:#1,0,32;next:#2,32,32;;
> 1 t int r#1;-2147483648;2147483647;
> 2 - - *#0
ends 0
big .stabs \"b.c\",100,0,0,Ltext0|.text|Ltext0:|.stabs \"int:t(0,1)=r(0,1);-2147483648;2147483647;\",128,0,0,0|.stabs \"list.h\",130,0,0,0|.stabs \"list:T(1,1)=s8val:(0,1),0,32;next:(1,2)=*(1,1),32,32;;\",128,0,0,0|.stabn 162,0,0,0|.stabs \"stdio.h\",130,0,0,0|.stabs \"size_t:t(2,1)=(0,1)\",128,0,0,0|.stabn 162,0,0,0|.globl _f|_f:|.stabs \"f:F(0,1)\",36,0,7,_f|.stabn 68,0,8,LM1|LM1:|.long 0|LE:|.stabn 100,0,0,LE
has 0 N_SO 00 0000 00000000 b.c
again big
# the assembly of an object
little .byte 1,2|.data|.byte 3|.rel text,0,4,2|.machine 100|.entry 0x1000|.bsize 8|.stabs \"a\\\"\\\\\\7~ \\177\\200b\",36,1,3,-1|.stabn 68,0,5,0
run list out.o
> .machine 100
> .entry 0x00001000
> .bsize 8
> .text
> .byte 0x01,0x02
> .data
> .byte 0x03
> .rel text,0,4,2
> .stabs \"a\\\"\\\\\\007~ \\177\\200b\",36,1,3,0xffffffff
> .stabn 68,0,5,0x00000000
ends 0
again little
# sixteen bytes to a line
little .space 15|.byte 255,16
run list out.o
has .byte 0x00,0x00,0x00,0x00,0x00,0x00,0x00,0x00,0x00,0x00,0x00,0x00,0x00,0x00,0x00,0xff
has .byte 0x10
again little
# nothing
little 
run list out.o
> .machine 0
> .entry 0x00000000
> .bsize 0
> .text
> .data
ends 0
again little
# words that are wrong, missing and too many
run as
> usage: word 1
ends 2
run as litle in.s out.o
> usage: word 1
ends 2
run as little
> usage: word 2
ends 2
run as little in.s
> usage: word 3
ends 2
run as little in.s out.o out.o
> usage: word 4
ends 2
run as big in.s \xff
> usage: word 3
ends 2
run list
> usage: word 1
ends 2
run list out.o out.o
> usage: word 2
ends 2
# files that are not there, or no object
run as big none.s out.o
> absent none.s
ends 5
run list none.o
> absent none.o
ends 5
run list in.s
> refused in.s 1 0 0
ends 3
# a load that fails
files 0
run as big in.s out.o
> read fault in.s
ends 6
# a store that fails: the file stays as it was
file old.o 'old'
files 1
run as big in.s old.o
> write fault
holds old.o 'old'
ends 7
# a store over what was there
source .byte 7
run as big in.s old.o
ends 0
# a put that fails, behind the store
sink 0
run as big in.s new.o
ends 7
";
