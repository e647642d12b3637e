/// Rows of queries: words that are wrong, files that fail or are damaged, and each question on objects.
pub const ROWS: &[u8] = b"
file a.o 07010000_00000000_00000000_00000000_24000000_00000000_00000000_00000000_040000006400000000000000_080000008000000000000000_320000008000000000000000_69000000_'a.c'00_'int:t(0,1)=r(0,1);-2147483648;2147483647;'00_'list:T(0,2)=s8val:(0,1),0,32;next:(0,3)=*(0,2),32,32;;'00

# a structure that leads to itself by a pointer
run query a.o tag 0 list
> 3
> 0 T list s8val:#1,0,32;next:#2,32,32;;
> 1 t int r#1;-2147483648;2147483647;
> 2 - - *#0
ends 0
# no symbol of this name
run query a.o tag 0 lost
> none
ends 0
# a name of a type is no tag
run query a.o tag 0 int
> none
ends 0
# the front of a name is another name
run query a.o tag 0 lis
> none
ends 0
# a unit that is not there
run query a.o tag 1 list
> none
ends 0
# the greatest number of a unit
run query a.o tag 4294967295 list
> none
ends 0

# no words
run
> usage: word 0
ends 2
# another command
run find a.o tag 0 list
> usage: word 0
ends 2
# a word that begins with a command
run querya a.o tag 0 list
> usage: word 0
ends 2
# a file is missing
run query
> usage: word 1
ends 2
# a question is missing
run query a.o
> usage: word 2
ends 2
# another question
run query a.o unit
> usage: word 2
ends 2
# a word too many behind a question without operands
run query a.o units x
> usage: word 3
ends 2
# an address past the greatest
run query a.o scope 0x100000000
> usage: word 3
ends 2
# a line past the greatest
run query a.o addresses a.c 65536
> usage: word 4
ends 2
# a number is missing
run query a.o tag
> usage: word 3
ends 2
# a leading zero
run query a.o tag 01 list
> usage: word 3
ends 2
# a number past the greatest
run query a.o tag 4294967296 list
> usage: word 3
ends 2
# a wrong number comes before a missing name
run query a.o tag x
> usage: word 3
ends 2
# a name is missing
run query a.o tag 0
> usage: word 4
ends 2
# a word too many
run query a.o tag 0 list x
> usage: word 5
ends 2
# a word that is not UTF-8
run \xff
> usage: word 0
ends 2
# a file's name that is not UTF-8
run query \xe9.o tag 0 list
> usage: word 1
ends 2
# an earlier wrong word comes before one that is not UTF-8
run query a.o tag 01 \xff
> usage: word 3
ends 2
# a tag that is not UTF-8
run query a.o tag 0 \xc3
> usage: word 4
ends 2
# a word too many that is not UTF-8
run query a.o tag 0 list \xff
> usage: word 5
ends 2
# a word that is not UTF-8 comes before one that is missing
run query \xff
> usage: word 1
ends 2

# no file of this name
run query b.o tag 0 list
> absent b.o
ends 5
# the shown form of a name
run query \x01 tag 0 list
> absent \\x01
ends 5
# a name of two bytes of UTF-8
run query \xc3\xa9.o tag 0 list
> absent \\xc3\\xa9.o
ends 5
# a load that fails
files 0
run query a.o tag 0 list
> read fault a.o
ends 6
# a load that fails of a file that is not there
files 0
run query b.o tag 0 list
> read fault b.o
ends 6
# a put that fails
sink 0
run query a.o tag 0 list
ends 7
# a load and a put that fail
files 0
sink 0
run query a.o tag 0 list
ends 7
# only the calls of the table fail
files 1
sink 1
run query a.o tag 0 lost
> none
ends 0

# an outcome that is stored and printed
carry 0 out 010203 done
> done
holds out 010203
ends 0
# other files stay
carry 0 empty_out . done
> done
holds empty_out .
lacks out
ends 0
# a store that fails
files 0
carry 0 out 010203 done
> write fault
lacks out
ends 7
# a put that fails behind a store
sink 0
carry 0 out 010203 done
holds out 010203
ends 7
# a store and a put that fail
files 0
sink 0
carry 0 out 010203 done
lacks out
ends 7

file empty .
# a file without bytes
run query empty tag 0 list
> refused empty 5 0 0
ends 3
file short.o 07010000_00000000_00000000_00000000_24000000_00000000_00000000_00000000_040000006400000000000000_080000008000000000000000_320000008000000000000000_69000000_'a.c'00_'int:t(0,1)=r(0,1);-2147483648;2147483647;'00_'list:T(0,2)=s8val:(0,1),0,32;next:(0,3)=*(0,2),32,32;;'
# one byte short
run query short.o tag 0 list
> refused short.o 5 172 0
ends 3
file long.o 07010000_00000000_00000000_00000000_24000000_00000000_00000000_00000000_040000006400000000000000_080000008000000000000000_320000008000000000000000_69000000_'a.c'00_'int:t(0,1)=r(0,1);-2147483648;2147483647;'00_'list:T(0,2)=s8val:(0,1),0,32;next:(0,3)=*(0,2),32,32;;'00_00
# one byte too many
run query long.o tag 0 list
> refused long.o 6 173 0
ends 3
file x.o 08016400_00000000_00000000_00000000_00000000_00000000_00000000_00000000
# another magic
run query x.o tag 0 list
> refused x.o 1 0 0
ends 3
file x.o 07010107_00000000_00000000_00000000_00000000_00000000_00000000_00000000
# the magic in both orders
run query x.o tag 0 list
> refused x.o 2 0 0
ends 3
file x.o 07010000_00000000_00000000_00000000_0b000000_00000000_00000000_00000000
# eleven bytes of entries
run query x.o tag 0 list
> refused x.o 3 16 0
ends 3
file x.o 07016400_00000000_00000000_00000000_0c000000_00000000_00000000_00000000_040000006400000000000000_07000000_'a.c'
# a name that does not end
run query x.o tag 0 list
> refused x.o 13 0 0
ends 3
file x.o 07016400_00000000_00000000_00000000_00000000_00000000_00000000_00000000
# a file without entries has no units
run query x.o units
> none
ends 0
run query x.o tag 0 list
> none
ends 0

object little l.o 05:_f 64:a.c 05:_g 80:int:t(0,1)=r(0,1);-2147483648;2147483647; 01:_h 80:list:T(0,2)=s8val:(0,1),0,32;next:(0,3)=*(0,2),32,32;; 05:
object big b.o 05:_f 64:a.c 05:_g 80:int:t(0,1)=r(0,1);-2147483648;2147483647; 01:_h 80:list:T(0,2)=s8val:(0,1),0,32;next:(0,3)=*(0,2),32,32;; 05:
# all parts of a file, and entries that are no stabs, in little order
run query l.o tag 0 list
> 3
> 0 T list s8val:#1,0,32;next:#2,32,32;;
> 1 t int r#1;-2147483648;2147483647;
> 2 - - *#0
ends 0
# the same in big order
run query b.o tag 0 list
> 3
> 0 T list s8val:#1,0,32;next:#2,32,32;;
> 1 t int r#1;-2147483648;2147483647;
> 2 - - *#0
ends 0
# an entry that is no stab names no tag
run query b.o tag 0 _f
> none
ends 0

object big x.o 64:a.c 80:p:(0,4)=*(0,5)=k(0,1) 80:box:T(0,6)=s4at:(0,4),0,32;; 80:int:t(0,1)=r(0,1);-2147483648;2147483647;
# a symbol that is no type symbol counts for the definitions inside it
run query x.o tag 0 box
> 4
> 0 T box s4at:#1,0,32;;
> 1 - - *#2
> 2 - - k#3
> 3 t int r#3;-2147483648;2147483647;
ends 0
object little x.o 64:a.c 80:ptr:t(0,4)=*(0,5)=xsnode: 80:alias:t(0,5) 80:node:T(0,5)=s4up:(0,4),0,32;;
# a later structure stands for a cross reference, and a name is the first symbol's
run query x.o tag 0 node
> 2
> 0 t alias s4up:#1,0,32;;
> 1 t ptr *#0
ends 0
object little x.o 64:a.c 80:leaf:T7=s4at:(0,6)=xsleaf:,0,32;;
# a cross reference alone is the definition
run query x.o tag 0 leaf
> 2
> 0 T leaf s4at:#1,0,32;;
> 1 - - xsleaf:
ends 0
object big x.o 64:a.c 80:far:T(1,1)=s4a:7,0,32;; 80:near:T8=s4a:7,0,32;b:(1,1),32,32;; 80:seven:t7=-1;
# a number of a file that is not there is defined by the main source, and has no name
run query x.o tag 0 far
> 2
> 0 - - s4a:#1,0,32;;
> 1 t seven -1;
ends 0
# a plain number is one of file 0
run query x.o tag 0 near
> 3
> 0 T near s4a:#1,0,32;b:#2,32,32;;
> 1 t seven -1;
> 2 - - s4a:#1,0,32;;
ends 0
object little x.o 64:a.c 80:e:t(0,900)=f(0,77) 80:unused:t(0,20)=*(0,900) 80:d:t(0,5)=B(0,900) 80:c:t(0,1000)=*(0,5) 80:chain:T(0,3)=u4m:(0,1000),0,32;; 80:chain:T(0,20)
# a chain from a later symbol to earlier ones, and the first of two tags
run query x.o tag 0 chain
> 5
> 0 T chain u4m:#1,0,32;;
> 1 t c *#2
> 2 t d B#3
> 3 t e f#4
> 4 - - undefined
ends 0
object little x.o 64:a.c 80:void:t(0,19)=(0,19) 80:f:t(0,20)=*(0,19) 80:f:t(0,20)=f(0,19) 80:g:T(0,20) 80:a:Tt(0,21)=ar(0,1);0;J;(0,22)=k(0,19)
# a number that is defined as itself, and the first of two definitions
run query x.o tag 0 g
> 2
> 0 t f *#1
> 1 t void #1
ends 0
# an array: its index comes before its item
run query x.o tag 0 a
> 4
> 0 Tt a ar#1;0;J;#2
> 1 - - undefined
> 2 - - k#3
> 3 t void #3
ends 0

object little x.o 64:a.c 80:x:t(01,2)
# a leading zero in a string
run query x.o tag 0 x
> refused x.o 40 1 5
ends 3
object big x.o 64:a.c 80:int:t(0,1)=r(0,1);-2147483648;2147483647; 80:x:t(0
# a string that ends too early, by the number of its entry
run query x.o tag 0 int
> refused x.o 41 2 5
ends 3
object little x.o 05:_f 64:a.c 80:t:t1=-1; 80:x:t(0 80:x:t(01,2)
# entries that are no stabs are counted, and the first string with a fault is told
run query x.o tag 0 x
> refused x.o 41 3 5
ends 3
object big x.o 64:a.c 80:x:t(0,1)=***************************************************************************************************(0,1)
# a type of depth 101
run query x.o tag 0 x
> refused x.o 42 1 108
ends 3
object little x.o 64:a.c 80:x:t(01,2) 0a:x
# a kind that no entry has comes before a string
run query x.o tag 0 x
> refused x.o 30 2 0
ends 3
object little x.o
# no stabs
run query x.o units
> none
ends 0

# ---- all questions
object little a.o 64:/w/ 64:a.c 3c:gcc2_compiled. 80:int:t(0,1)=r(0,1);-2147483648;2147483647; 82:stdio.h 80:size_t:t(1,1)=(0,1) a2: 82:list.h 80:list:T(2,1)=s8val:(0,1),0,32;next:(2,2)=*(2,1),32,32;; a2: 05:_main 24@0.3:main:F(0,1) a0@8:argc:p(0,1) 44@0.4: 44@4.5: 80@fffffffc:head:(0,2)=*(2,1) c0: e0@8: 01@4:_total 20:total:G(0,1) 64@8: 01:_f
# an object of a compiler, in little order: a common has no address
run query a.o units
> 0 00000000 00000008 /w/a.c
ends 0
run query a.o files 0
> 0 /w/a.c
> 1 stdio.h
> 2 list.h
ends 0
run query a.o tag 0 list
> 3
> 0 T list s8val:#1,0,32;next:#2,32,32;;
> 1 t int r#1;-2147483648;2147483647;
> 2 - - *#0
ends 0
run query a.o type 0 size_t
> 2
> 0 t size_t #1
> 1 t int r#1;-2147483648;2147483647;
ends 0
run query a.o number 0 0 2
> 4
> 0 - - *#1
> 1 T list s8val:#2,0,32;next:#3,32,32;;
> 2 t int r#2;-2147483648;2147483647;
> 3 - - *#1
ends 0
run query a.o scope 0x5
> unit 0 /w/a.c
> function main 00000000
> var p argc (0,1) 00000008
> block 00000000 00000008
> var - head (0,2)=*(2,1) fffffffc
> var G total (0,1) -
ends 0
run query a.o line 0x6
> /w/a.c 5 00000004
ends 0
run query a.o addresses /w/a.c 5
> 0 00000004
ends 0
run query a.o scope 0x8
> none
ends 0
run query a.o addresses a.c 5
> none
ends 0
object big b.o 64:/w/ 64:a.c 3c:gcc2_compiled. 80:int:t(0,1)=r(0,1);-2147483648;2147483647; 82:stdio.h 80:size_t:t(1,1)=(0,1) a2: 82:list.h 80:list:T(2,1)=s8val:(0,1),0,32;next:(2,2)=*(2,1),32,32;; a2: 05:_main 24@0.3:main:F(0,1) a0@8:argc:p(0,1) 44@0.4: 44@4.5: 80@fffffffc:head:(0,2)=*(2,1) c0: e0@8: 09@100c:_total 20:total:G(0,1) 64@8: 01:_f
# the same in big order, where the variable has an address
run query b.o units
> 0 00000000 00000008 /w/a.c
ends 0
run query b.o files 0
> 0 /w/a.c
> 1 stdio.h
> 2 list.h
ends 0
run query b.o tag 0 list
> 3
> 0 T list s8val:#1,0,32;next:#2,32,32;;
> 1 t int r#1;-2147483648;2147483647;
> 2 - - *#0
ends 0
run query b.o type 0 size_t
> 2
> 0 t size_t #1
> 1 t int r#1;-2147483648;2147483647;
ends 0
run query b.o number 0 0 2
> 4
> 0 - - *#1
> 1 T list s8val:#2,0,32;next:#3,32,32;;
> 2 t int r#2;-2147483648;2147483647;
> 3 - - *#1
ends 0
run query b.o scope 0x5
> unit 0 /w/a.c
> function main 00000000
> var p argc (0,1) 00000008
> block 00000000 00000008
> var - head (0,2)=*(2,1) fffffffc
> var G total (0,1) 0000100c
ends 0
run query b.o line 0x6
> /w/a.c 5 00000004
ends 0
run query b.o addresses /w/a.c 5
> 0 00000004
ends 0
run query b.o scope 0x8
> none
ends 0
run query b.o addresses a.c 5
> none
ends 0
object little x.o 64:a.c 80:void:t(0,19)=(0,19)
# a type that is itself
run query x.o type 0 void
> 1
> 0 t void #0
ends 0
object little x.o 64:a.c 80:int:t(0,1)=r(0,1);-2147483648;2147483647; 80:list:T(0,2)=s8val:(0,1),\\ 80:0,32;next:(0,3)=\\ 80:*(0,2),32,32;;
# a string in three entries
run query x.o tag 0 list
> 3
> 0 T list s8val:#1,0,32;next:#2,32,32;;
> 1 t int r#1;-2147483648;2147483647;
> 2 - - *#0
ends 0
object little x.o 64:a.c 80:int:t(0,1)=r(0,1);-2147483648;2147483647; 80:list:T(0,2)=s8val:(0,1),\\ 80:0,32;next:(0,3)=\\ 24:*(0,2),32,32;;
# the last of the three is of another kind
run query x.o tag 0 list
> refused x.o 51 3 0
ends 3
object little x.o 64:a.c 80:ull:t(0,9)=@s64;r(0,9);0;01777777777777777777777;
# an attribute, and an octal bound
run query x.o type 0 ull
> 1
> 0 t ull @s64;r#0;0;01777777777777777777777;
ends 0
object little x.o 64:a.c 82:n.h 80:n:T(1,1)=xsn: a2: 80:int:t(0,1)=r(0,1);-2147483648;2147483647; 80:n:T(1,1)=s4v:(0,1),0,32;;
# a cross reference of a header, and its later definition in the main file
run query x.o tag 0 n
> 2
> 0 T n s4v:#1,0,32;;
> 1 t int r#1;-2147483648;2147483647;
ends 0
run query x.o number 0 7 7
> 1
> 0 - - undefined
ends 0
run query x.o tag 0 zz
> none
ends 0
# a tag is no typedef
run query x.o type 0 n
> none
ends 0
# ---- stabs that are no units
object little x.o 80:t:t1=-1;
# a symbol outside a unit
run query x.o units
> refused x.o 50 0 0
ends 3
object big x.o 64:a.c 80:t:t1=-1; 64@1004: 80:u:t2=-1;
# a symbol behind the end of a unit
run query x.o units
> refused x.o 50 3 0
ends 3
object little x.o 64:a.c 80:x:\\
# a string that is not continued
run query x.o units
> refused x.o 51 1 0
ends 3
object little x.o 64:a.c 80:x:t1=\\ 24:-1;
# a string that is continued by another kind
run query x.o units
> refused x.o 51 1 0
ends 3
object little x.o 64:a.c 82:a.h 82:b.h a2:
# a header range that is not closed
run query x.o units
> refused x.o 52 1 0
ends 3
object little x.o 64:a.c a2:
# a header range that is not open
run query x.o units
> refused x.o 53 1 0
ends 3
object little x.o 64:a.c c0: c0: e0:
# a block that is not closed
run query x.o units
> refused x.o 54 1 0
ends 3
object little x.o 64:a.c e0:
# a block that is not open
run query x.o units
> refused x.o 54 1 0
ends 3
object little x.o 64:a.c c2@5:a.h
# an excluded header without a range
run query x.o units
> refused x.o 100 1 0
ends 3
object little x.o 80:x:\\
# two faults at one entry: the smaller number
run query x.o units
> refused x.o 50 0 0
ends 3
object little x.o 64:a.c c2:a.h e0:
# a block that is not open comes before an excluded header
run query x.o units
> refused x.o 54 2 0
ends 3
object big x.o 64:a.c 80:x:t(01,2) 82:a.h
# an open header comes before a wrong string
run query x.o units
> refused x.o 52 2 0
ends 3
object big x.o 64:a.c 80:x:t(0,1)=\\ 80:(01,2) 80:y:t(0
# a wrong string is told at its first entry, by the place in the whole string
run query x.o units
> refused x.o 40 1 11
ends 3
object little x.o 64:a.c ff:x 80:
# kinds that carry no symbol, and a symbol without a string
run query x.o units
> 0 00000000 00001004 a.c
ends 0

# ---- units
object little x.o 64@1000:/w/ 64@1000:a.c 44@1000.1: 64@1002:b.c 05@1004:_b 64@1003:
# two units, the first behind a directory's mark, the second with its end
run query x.o units
> 0 00001000 00001002 /w/a.c
> 1 00001002 00001003 b.c
ends 0
run query x.o files 1
> 0 b.c
ends 0
run query x.o files 2
> none
ends 0
run query x.o line 0x1001
> /w/a.c 1 00001000
ends 0
run query x.o line 0x1002
> none
ends 0
";
