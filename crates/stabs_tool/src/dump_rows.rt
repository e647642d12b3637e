/// Rows of `dump`.
pub const ROWS: &[u8] = b"
# ---- dumps
object little d.o 64:/w/ 24@1000.3:f:F(0,1) 05@1004:_f c0: 80@fffffffc:a 1f: 09:
# a kind that no entry has, before anything is printed
run dump d.o
> refused d.o 30 5 0
ends 3
object little d.o 64:/w/ 24@1000.3:f:F(0,1) 05@1004:_f c0: 80@fffffffc:a-b ff: 09:-
# all parts of a file, in little order
run dump d.o
> order little machine 0064 entry 00001000
> text 4 data 4 bss 8
> text
> 00001000 01020304
> data
> 00001004 05060708
> reloc text 0 00000000 4 0 2 0
> reloc data 1 00000000 6 0 2 0
> 0 N_SO 00 0000 00000000 /w/
> 1 N_FUN 00 0003 00001000 f:F(0,1)
> 2 05 00 0000 00001004 _f
> 3 N_LBRAC 00 0000 00000000 -
> 4 N_LSYM 00 0000 fffffffc a-b
> 5 ff 00 0000 00000000 -
> 6 09 00 0000 00000000 \\x2d
ends 0
object big d.o 64:/w/ 24@1000.3:f:F(0,1)
# the same in big order
run dump d.o
> order big machine 0064 entry 00001000
> text 4 data 4 bss 8
> text
> 00001000 01020304
> data
> 00001004 05060708
> reloc text 0 00000000 4 0 2 0
> reloc data 1 00000000 6 0 2 0
> 0 N_SO 00 0000 00000000 /w/
> 1 N_FUN 00 0003 00001000 f:F(0,1)
ends 0
file d.o 07010000_11000000_10000000_00000000_00000000_f0ffffff_08000000_08000000
# seventeen bytes of text and sixteen of data, up to an address past the greatest
run dump d.o
> refused d.o 7 20 0
ends 3
file d.o 07010000_11000000_10000000_00000000_00000000_00f0ffff_10000000_08000000_'abcdefghijklmnopq'_'ABCDEFGHIJKLMNOP'_000000000500000d_0f0000000800000a_0000000006000004
# rows of sixteen bytes and of one, relocations of each length, numbered through both segments
run dump d.o
> order little machine 0000 entry fffff000
> text 17 data 16 bss 0
> text
> fffff000 6162636465666768696a6b6c6d6e6f70
> fffff010 71
> data
> fffff011 4142434445464748494a4b4c4d4e4f50
> reloc text 0 00000000 5 1 2 1
> reloc text 1 0000000f 8 0 1 1
> reloc data 2 00000000 6 0 2 0
ends 0
file empty.o 07010000_00000000_00000000_00000000_00000000_00000000_00000000_00000000
# no segments, no entries
run dump empty.o
> order little machine 0000 entry 00000000
> text 0 data 0 bss 0
> text
> data
ends 0
# a file is missing
run dump
> usage: word 1
ends 2
# a word too many
run dump d.o d.o
> usage: word 2
ends 2
# a name that is not UTF-8
run dump \xff
> usage: word 1
ends 2
# no file of this name
run dump missing.o
> absent missing.o
ends 5
# a load that fails
files 0
run dump d.o
> read fault d.o
ends 6
# a put that fails
sink 0
run dump d.o
ends 7
";
