use crate::table::all_hold;

const WORLDS: &[u8] = b"\
# a header with its own number 1, a function with a block, lines of two files
world 300 64@100=a.c 80=int:t(0,1)=r(0,1);0;9; 82=h.h 80=s:Tt(1,1)=*(0,1) a2 20=g:G(0,1) 44@100#3 24@100=f:F(0,1) a0@8=n:p(0,1)
+ 80@fffffffc=x:(1,1) c0@4 e0@8 84@108=h.h 44@108#7 05@180=_g
? units
  0 00000100 00000300 a.c
? files 0
  0 a.c
  1 h.h
? files 1
  none
? tag 0 s
  2
  0 Tt s *#1
  1 t int r#1;0;9;
? type 0 s
  2
  0 Tt s *#1
  1 t int r#1;0;9;
? type 0 int
  1
  0 t int r#0;0;9;
? tag 0 int
  none
? number 0 1 1
  2
  0 Tt s *#1
  1 t int r#1;0;9;
? number 0 0 9
  1
  0 - - undefined
? scope 0x105
  unit 0 a.c
  function f 00000100
  var p n (0,1) 00000008
  block 00000104 00000108
  var - x (1,1) fffffffc
  var G g (0,1) 00000180
? scope 0x110
  unit 0 a.c
  function f 00000100
  var p n (0,1) 00000008
  var G g (0,1) 00000180
? scope 0x300
  none
? line 0x107
  a.c 3 00000100
? line 0x108
  h.h 7 00000108
? line 0xff
  none
? addresses h.h 7
  0 00000108
? addresses a.c 7
  none
# no units
world 300
? units
  none
? files 0
  none
? tag 0 s
  none
? number 0 0 1
  none
? scope 0x0
  none
? line 0x0
  none
? addresses a.c 1
  none
# the unit of an address: the first that holds it, from its start up to before its end
world 300 64@100=a 64@180 64@200=b 64@280=c 64@290 64@240=d
? units
  0 00000100 00000180 a
  1 00000200 00000280 b
  2 00000280 00000290 c
  3 00000240 00000300 d
? scope 0xff
  none
? scope 0x100
  unit 0 a
? scope 0x17f
  unit 0 a
? scope 0x180
  none
? scope 0x1ff
  none
? scope 0x200
  unit 1 b
? scope 0x240
  unit 1 b
? scope 0x280
  unit 2 c
? scope 0x290
  unit 3 d
? scope 0x2ff
  unit 3 d
? scope 0x300
  none
world 300 64@200=a 64@100=b 64@100=c 64@101
? units
  0 00000200 00000100 a
  1 00000100 00000100 b
  2 00000100 00000101 c
? scope 0x100
  unit 2 c
? scope 0x150
  none
? scope 0x200
  none
world ffffffff 64=a 64@10 64@fffffff0=b
? scope 0x0
  unit 0 a
? scope 0x0000000F
  unit 0 a
? scope 0x10
  none
? scope 0xFFFFFFF0
  unit 1 b
? scope 0xfffffffe
  unit 1 b
? scope 0xffffffff
  none
# blocks in one another; an item before the bracket of a block belongs to it
world 300 64@100=a 24@100=f:F1 a0@8=p:p1 80@1=v:1 c0@4 80@2=w:1 c0@8 e0@c 80@3=y:1 e0@10 80@4=z:1
? scope 0x103
  unit 0 a
  function f 00000100
  var p p 1 00000008
  var - y 1 00000003
  var - z 1 00000004
? scope 0x104
  unit 0 a
  function f 00000100
  var p p 1 00000008
  var - y 1 00000003
  var - z 1 00000004
  block 00000104 00000110
  var - v 1 00000001
? scope 0x108
  unit 0 a
  function f 00000100
  var p p 1 00000008
  var - y 1 00000003
  var - z 1 00000004
  block 00000104 00000110
  var - v 1 00000001
  block 00000108 0000010c
  var - w 1 00000002
? scope 0x10b
  unit 0 a
  function f 00000100
  var p p 1 00000008
  var - y 1 00000003
  var - z 1 00000004
  block 00000104 00000110
  var - v 1 00000001
  block 00000108 0000010c
  var - w 1 00000002
? scope 0x10c
  unit 0 a
  function f 00000100
  var p p 1 00000008
  var - y 1 00000003
  var - z 1 00000004
  block 00000104 00000110
  var - v 1 00000001
? scope 0x110
  unit 0 a
  function f 00000100
  var p p 1 00000008
  var - y 1 00000003
  var - z 1 00000004
# two blocks behind one another, of which the second has no items and the third no address
world 300 64@100=a 24@100=f:F1 80@1=v:1 c0 e0@8 c0@4 e0@10 80@2=w:1 c0@4 e0@4
? scope 0x100
  unit 0 a
  function f 00000100
  block 00000100 00000108
  var - v 1 00000001
? scope 0x104
  unit 0 a
  function f 00000100
  block 00000100 00000108
  var - v 1 00000001
  block 00000104 00000110
? scope 0x108
  unit 0 a
  function f 00000100
  block 00000104 00000110
# bounds count from the unit's start, and begin again at 0 past the greatest address
world 300 64@100=a 24@100=f:F1 80@1=v:1 c0@fffffff0 e0@80
? scope 0x17f
  unit 0 a
  function f 00000100
  block 000000f0 00000180
  var - v 1 00000001
? scope 0x180
  unit 0 a
  function f 00000100
# a block belongs to the last function before it, and its end may stand behind the next one
world 300 64@100=a c0@0 e0@200 80@9=t:1 24@100=f:F1 80@1=u:1 c0@4 80@2=v:1 24@180=g:F1 80@3=w:1 e0@88 80@4=z:1 c0@4 e0@200
? scope 0x105
  unit 0 a
  function f 00000100
  var - v 1 00000002
  block 00000104 00000188
  var - u 1 00000001
? scope 0x185
  unit 0 a
  function g 00000180
  var - w 1 00000003
  block 00000104 00000300
  var - z 1 00000004
# the function of an address: the greatest value not above it, the last of equals
world 300 64@100=a 24@180=f:F1 a0@1=p:p1 24@140=g:f1 a0@2=q:p1 24@140=h:F1 a0@3=r:p1
? scope 0x13f
  unit 0 a
? scope 0x140
  unit 0 a
  function h 00000140
  var p r 1 00000003
? scope 0x17f
  unit 0 a
  function h 00000140
  var p r 1 00000003
? scope 0x180
  unit 0 a
  function f 00000180
  var p p 1 00000001
? scope 0x2ff
  unit 0 a
  function f 00000180
  var p p 1 00000001
# one of another unit is none, one below the unit's start is
world 300 64@100=a 24@80=f:F1 64@200=b 24@100=g:F1 64@280=c
? scope 0x150
  unit 0 a
  function f 00000080
? scope 0x250
  unit 1 b
  function g 00000100
? scope 0x290
  unit 2 c
# items without a function before them belong to none, those before a block of none too
world 300 64@100=a a0@1=p:p1 80@2=u:1 c0@0 e0@100 80@3=v:1 24@100=f:F1
? scope 0x100
  unit 0 a
  function f 00000100
# parameters belong to the function wherever they stand, and r and V go as items without a letter do
world 300 64@100=a 24@100=f:F1 a0@1=p:p1 40@2=q:P1 a0@3=a:a1 40@4=v:v1 40@5=r:r1 26@6=s:V1 80@7=t:1 c0 a0@8=o:p1 40@9=x:r1 28@a=y:V1 80@b=z:1 e0@10
? scope 0x100
  unit 0 a
  function f 00000100
  var p p 1 00000001
  var P q 1 00000002
  var a a 1 00000003
  var v v 1 00000004
  var p o 1 00000008
  var r x 1 00000009
  var V y 1 0000000a
  var - z 1 0000000b
  block 00000100 00000110
  var r r 1 00000005
  var V s 1 00000006
  var - t 1 00000007
# an N_FUN that is no function, and f or F elsewhere, belong to nothing and decide nothing; else the letter counts, and not the code
world 300 64@100=a 24@100=f:F1 24@1=p:p1 80@2=u:1 24@120 80@121=g:F1 a0@122=h:f1 24@123=i:1 44@124#1 84=a 3c=o c0 e0@100
? scope 0x130
  unit 0 a
  function f 00000100
  var p p 1 00000001
  block 00000100 00000200
  var - u 1 00000002
  var - i 1 00000123
# a function whose string goes on, with the value of the first entry, at the end of its unit
world 300 64@100=a 24@110=f:\\ 24@180=F(0,1)=k2 64@200=b 80@1=x\\ 80@2=:1
? scope 0x1ff
  unit 0 a
  function f 00000110
? scope 0x200
  unit 1 b
# what belongs to the unit, in its order; a G has the value of the first external of its name
world 300 64@100=a 20@9=x:G1 26@50=s:S1 24@100=f:F1 80@3=v:1 20=y:G1 28@60=t:S*1 c0 2c@61=u:S(0,2)=k1 e0@10 64@200=b 26@70=w:S1 20@1=x:G1
+ 05@2=_x 05@3=_x 04@4=_y 03@8=_z
? scope 0x100
  unit 0 a
  function f 00000100
  block 00000100 00000110
  var - v 1 00000003
  var G x 1 00000002
  var S s 1 00000050
  var G y 1 -
  var S t *1 00000060
  var S u (0,2)=k1 00000061
? scope 0x200
  unit 1 b
  var S w 1 00000070
  var G x 1 00000002
# kinds 3, 5, 7 and 9 alone are external, and the name begins with _
world 300 01@1=_a 02@1=_a 03@3=_a 05@5=_b 04@1=_c 07@7=_c 09@9=_d 08@1=_e 06@1=_e =_e 05@b=_ 05@c=f 05@d=__g 05@e=_G 25@f=_e 64@100=u
+ 20=a:G1 20=b:G1 20=c:G1 20=d:G1 20=e:G1 20=:G1 20=f:G1 20=_g:G1 20=g:G1
? units
  refused 50 14 0
world 300 01@1=_a 02@1=_a 03@3=_a 05@5=_b 04@1=_c 07@7=_c 09@9=_d 08@1=_e 06@1=_e =_e 05@b=_ 05@c=f 05@d=__g 05@e=_G 64@100=u
+ 20=a:G1 20=b:G1 20=c:G1 20=d:G1 20=e:G1 20=:G1 20=f:G1 20=_g:G1 20=g:G1
? scope 0x100
  unit 0 u
  var G a 1 00000003
  var G b 1 00000005
  var G c 1 00000007
  var G d 1 00000009
  var G e 1 -
  var G - 1 0000000b
  var G f 1 -
  var G _g 1 0000000d
  var G g 1 -
# the line of an address: the greatest value not above it, the last of equals, with the file that the last N_SOL before it names
world 300 64@100=d/ 64@100=a 44@100#1 44@108#2 44@108#3 84@108=h 44@110#4 44@104#5 84@110=a 44@118#6 84=h 64@200=b 44@200#1
? line 0xff
  none
? line 0x100
  d/a 1 00000100
? line 0x103
  d/a 1 00000100
? line 0x104
  h 5 00000104
? line 0x107
  h 5 00000104
? line 0x108
  d/a 3 00000108
? line 0x10f
  d/a 3 00000108
? line 0x110
  h 4 00000110
? line 0x118
  a 6 00000118
? line 0x1ff
  a 6 00000118
? line 0x200
  b 1 00000200
? line 0x2ff
  b 1 00000200
? line 0x300
  none
? addresses d/a 1
  0 00000100
? addresses d/a 3
  0 00000108
? addresses a 1
  none
? addresses a 6
  0 00000118
? addresses h 5
  0 00000104
? addresses h 3
  none
? addresses h 1
  none
? addresses b 1
  1 00000200
# no line at or below an address, a line of value 0, lines of another unit
world 300 64@100=a 44@104#1 64@180=b 64@200=c 44=d 44@f0#9 64@280=d 44@100#2
? line 0x103
  none
? line 0x104
  a 1 00000104
? line 0x190
  none
? line 0x200
  c 9 000000f0
? line 0x290
  d 2 00000100
# all addresses of a line, by units and in order
world 300 64@100=a 84=h 44@110#7 44@108#7 44@110#7 44@120#8 84 44@130#7 64@200=b 44@200#7 84=h 44@204#7 44@208#ffff 84=- 44@20c#0
? addresses h 7
  0 00000110
  0 00000108
  0 00000110
  1 00000204
? addresses h 8
  0 00000120
? addresses h 65535
  1 00000208
? addresses b 7
  1 00000200
? addresses \x20
  refused 60 3 0
? addresses  7
  0 00000130
? addresses - 0
  1 0000020c
? line 0x130
  - 7 00000130
? line 0x208
  h 65535 00000208
? line 0x20c
  \\x2d 0 0000020c
# the types of several files: a key's own file, file 0, the others upwards; no cross reference before a definition
world 300 64=m 80=a:t(0,1)=r(0,1);0;9; 80=b:t(1,9)=*1 80=c:t(2,9)=xsA: 80=d:t(0,7)=xsB: 80=e:t(0,7)=s4v:(0,1),0,32;; 80=g:T5=e; 80=q:t(0,4) 82=h
+ 80=a:t(1,1)=*(0,1) 80=b:T(2,1)=xsc: 80=c:t(2,5)=*1 80=d:t(3,8)=*1 a2 82=h 80=d:t(2,1)=*(1,1) 80=e:t(2,1)=k(1,1)
+ 80=f:Tt(0,2)=(2,2)=f(1,1) 80=g:t(2,5)=B(0,7) 80=h:t(2,9)=xuB: 80=i:t(3,8)=k1 80=j:t(1,9)=k1 80=k:(0,14)=*(0,4) a2 64=n 80=a:t1
? files 0
  0 m
  1 h
  2 h
? files 1
  0 n
? files 2
  none
? number 0 2 1
  3
  0 t d *#1
  1 t a *#2
  2 t a r#2;0;9;
? number 0 2 5
  3
  0 t g B#1
  1 t d s4v:#2,0,32;;
  2 t a r#2;0;9;
? number 0 3 8
  2
  0 - - *#1
  1 t a r#1;0;9;
? number 0 1 9
  2
  0 - - *#1
  1 t a r#1;0;9;
? number 0 2 9
  1
  0 t h xuB:
? number 0 0 14
  2
  0 - - *#1
  1 t q undefined
? tag 0 f
  4
  0 - - #1
  1 - - f#2
  2 t a *#3
  3 t a r#3;0;9;
? type 0 f
  4
  0 - - #1
  1 - - f#2
  2 t a *#3
  3 t a r#3;0;9;
? tag 0 b
  3
  0 t d *#1
  1 t a *#2
  2 t a r#2;0;9;
? type 0 b
  2
  0 - - *#1
  1 t a r#1;0;9;
? tag 0 a
  none
? type 0 g
  3
  0 t g B#1
  1 t d s4v:#2,0,32;;
  2 t a r#2;0;9;
? type 0 k
  none
? type 1 a
  1
  0 t a undefined
? tag 1 f
  none
? type 2 a
  none
? tag 4294967295 f
  none
? number 2 0 1
  none
# a cross reference in the key's own file, the definition in the main file behind it
world 30 64=a 82=n.h 80=n:T(1,1)=xsn: a2 80=int:t(0,1)=r(0,1);-2147483648;2147483647; 80=n:T(1,1)=s4v:(0,1),0,32;;
? tag 0 n
  2
  0 T n s4v:#1,0,32;;
  1 t int r#1;-2147483648;2147483647;
? type 0 n
  none
? number 0 7 7
  1
  0 - - undefined
? tag 0 zz
  none
# a symbol in three pieces, and a type that is its own
world 30 64=a.c 80=int:t(0,1)=r(0,1);-2147483648;2147483647; 80=list:T(0,2)=s8val:(0,1),\\ 80=0,32;next:(0,3)=\\ 80=*(0,2),32,32;;
+ 80=void:t(0,19)=(0,19) 80=ull:t(0,9)=@s64;r(0,9);0;01777777777777777777777;
? tag 0 list
  3
  0 T list s8val:#1,0,32;next:#2,32,32;;
  1 t int r#1;-2147483648;2147483647;
  2 - - *#0
? type 0 void
  1
  0 t void #0
? type 0 ull
  1
  0 t ull @s64;r#0;0;01777777777777777777777;
# names as replies show them
world 300
= 64@100=a b\\.c
= 82=\x01!~\x7f
= 80=a b:t(1,1)=xsx y\\:
= 80=-:T(1,2)=*(1,1)
+ 80=:t3=e\xc3\xa9:1,-:2,; a2
= 24@100=f\t:F(0,1)
= a0@1=-:p1=xs-\\:
= a0@2=:p2
= 26=\xc3\xa9:S1
= 84=h\x1f\x20
+ 44@100#1
? units
  0 00000100 00000300 a\\x20b\\x5c.c
? files 0
  0 a\\x20b\\x5c.c
  1 \\x01!~\\x7f
? number 0 1 2
  2
  0 T \\x2d *#1
  1 t a\\x20b xsx\\x20y\\x5c:
? tag 0 -
  2
  0 T \\x2d *#1
  1 t a\\x20b xsx\\x20y\\x5c:
? type 0\x20
  1
  0 - - e\\xc3\\xa9:1,-:2,;
? scope 0x100
  unit 0 a\\x20b\\x5c.c
  function f\\x09 00000100
  var p \\x2d 1=xs-\\x5c: 00000001
  var p - 2 00000002
  var S \\xc3\\xa9 1 00000000
? line 0x100
  h\\x1f\\x20 1 00000100
# words of a query: of which the first that is wrong, the first that is missing, or the first too many is told
world 30 64=a 80=\xc3\xa9:t1 44#ffff
?
  refused 60 1 0
?\x20
  refused 60 1 0
? unit
  refused 60 1 0
? Units
  refused 60 1 0
? unitss 0
  refused 60 1 0
? \xff
  refused 60 1 0
? units 0
  refused 60 2 0
? units \xff
  refused 60 2 0
? files
  refused 60 2 0
? files\x20
  refused 60 2 0
? files 00
  refused 60 2 0
? files 01
  refused 60 2 0
? files -1
  refused 60 2 0
? files +1
  refused 60 2 0
? files 0x0
  refused 60 2 0
? files 1x
  refused 60 2 0
? files 4294967295
  none
? files 4294967296
  refused 60 2 0
? files 4294967300
  refused 60 2 0
? files 10000000000
  refused 60 2 0
? files 99999999999999999999
  refused 60 2 0
? files 0 0
  refused 60 3 0
? files x 0
  refused 60 2 0
? tag
  refused 60 2 0
? tag 0
  refused 60 3 0
? tag x
  refused 60 2 0
? tag 01 s
  refused 60 2 0
? tag 00 a b
  refused 60 2 0
? tag 0 a b
  refused 60 4 0
? tag 0 \xff
  refused 60 3 0
? tag 0 \xc3
  refused 60 3 0
? tag 0 \xc3\xa9
  none
? tag 0\x20
  none
? tag 4294967296 a
  refused 60 2 0
? type
  refused 60 2 0
? type 0
  refused 60 3 0
? type 4294967295 a
  none
? type 4294967296 a
  refused 60 2 0
? type 0 \xc3\xa9
  1
  0 t \\xc3\\xa9 undefined
? type 0 a b
  refused 60 4 0
? number
  refused 60 2 0
? number 0
  refused 60 3 0
? number 0 1
  refused 60 4 0
? number 0 x
  refused 60 3 0
? number x 0 1
  refused 60 2 0
? number 0 01 1
  refused 60 3 0
? number 0 1 01
  refused 60 4 0
? number 0 1 1 1
  refused 60 5 0
? number 4294967295 0 0
  none
? number 4294967296 0 0
  refused 60 2 0
? number 0 4294967295 4294967295
  1
  0 - - undefined
? number 0 4294967296 0
  refused 60 3 0
? number 0 0 4294967296
  refused 60 4 0
? number 0 4294967296 4294967296
  refused 60 3 0
? scope
  refused 60 2 0
? scope 0x
  refused 60 2 0
? scope 0X1
  refused 60 2 0
? scope 0
  refused 60 2 0
? scope 10
  refused 60 2 0
? scope x1
  refused 60 2 0
? scope 00x1
  refused 60 2 0
? scope 0xg
  refused 60 2 0
? scope 0x/
  refused 60 2 0
? scope 0x:
  refused 60 2 0
? scope 0x@
  refused 60 2 0
? scope 0xG
  refused 60 2 0
? scope 0x`
  refused 60 2 0
? scope 0x-1
  refused 60 2 0
? scope 0x1_0
  refused 60 2 0
? scope 0x100000000
  refused 60 2 0
? scope 0x000000001
  refused 60 2 0
? scope 0x0
  unit 0 a
? scope 0x00000001
  unit 0 a
? scope 0x2F
  unit 0 a
? scope 0x2f
  unit 0 a
? scope 0x30
  none
? scope 0xffffffff
  none
? scope 0xABCDEF09
  none
? scope 0xabcdef09
  none
? scope 0x1 0x2
  refused 60 3 0
? line
  refused 60 2 0
? line 0x
  refused 60 2 0
? line 0x000000001
  refused 60 2 0
? line 0x00000001
  a 65535 00000000
? line 0x2F
  a 65535 00000000
? line 0xffffffff
  none
? line 0x1 1
  refused 60 3 0
? addresses
  refused 60 2 0
? addresses a
  refused 60 3 0
? addresses a x
  refused 60 3 0
? addresses a 00
  refused 60 3 0
? addresses a 01
  refused 60 3 0
? addresses a 0
  none
? addresses a 65535
  0 00000000
? addresses a 65536
  refused 60 3 0
? addresses a 131071
  refused 60 3 0
? addresses \xff 1
  refused 60 2 0
? addresses \xff
  refused 60 2 0
? addresses a 1 1
  refused 60 4 0
# a world that is refused
world 300 80=x:(0,1)
? units
  refused 50 0 0
? number 0 0 1
  refused 50 0 0
world 300 64@100=a.c 80=y:?
? units
  refused 40 1 2
? line 0x100
  refused 40 1 2
world 300 64@100=a.c c2=h.h
? units
  refused 55 1 0
";

#[test]
fn worlds_answer(rt: HostRuntime) {
    all_hold(&rt, rt.alloc(), WORLDS);
}
