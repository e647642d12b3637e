use crate::table::all_hold;

const OUTLINES: &[u8] = b"\
# no units
object 30
object 30 05@1=_x 1f=x
# behind directory marks, the last one up to its end mark
object 14 64@5=d/ 64@5=f 64@9=e/ 64@9=g 64@c
  unit 1 2 00000005 00000009 d/f
  unit 3 5 00000009 0000000c e/g
# up to an end mark, the start of the next unit, the end of text
object 30 64@5=a 64@7 64@9=b 64@4=c
  unit 0 2 00000005 00000007 a
  unit 2 3 00000009 00000004 b
  unit 3 4 00000004 00000030 c
# entries that are no stabs, also behind an end mark
object 30 05@1=_x 64@5=a 05@2=_y 64@7 04=z 64@9=b 05@3=_w
  unit 1 5 00000005 00000007 a
  unit 5 7 00000009 00000030 b
# a name with / at its end: a directory where the next entry is an N_SO with a name without it, else a unit
object 30 64@1=d/ 05=_x 64@2=f
  unit 0 2 00000001 00000002 d/
  unit 2 3 00000002 00000030 f
object 30 64@1=d/ 64@2=e/ 64@3=f
  unit 0 1 00000001 00000003 d/
  unit 2 3 00000003 00000030 e/f
object 30 64@1=d/ 64@2
  unit 0 2 00000001 00000002 d/
object 30 64@1=d/ 80=x:t1 64@2=f
  unit 0 2 00000001 00000002 d/
  unit 2 3 00000002 00000030 f
object 30 64@1=d/
  unit 0 1 00000001 00000030 d/
object 30 64@1=/ 64@2=f
  unit 1 2 00000002 00000030 /f
object 30 64@1=d/e 64@2=f
  unit 0 1 00000001 00000002 d/e
  unit 1 2 00000002 00000030 f
object 30 64@1=a 64@2=d/ 64@3=b 64@4=c
  unit 0 1 00000001 00000003 a
  unit 2 3 00000003 00000004 d/b
  unit 3 4 00000004 00000030 c
object 30 64@1=a 64@2 64@3=d/ 64@4=b
  unit 0 2 00000001 00000002 a
  unit 3 4 00000004 00000030 d/b
# headers, in one another and behind one another
image 14 64@5=a 82@1=b c2@2=c a2
  unit 0 4 00000005 00000014 a
  header 1 4 00000001 b
  excluded 2 3 00000002 c
object 14 64@5=a 82@1=b c2@2=c a2
  refused 55 2 0
object 30 64=a 82@1=h 82@2=g a2 80=x:t1 a2 82@3=h a2
  unit 0 8 00000000 00000030 a
  header 1 6 00000001 h
  header 2 4 00000002 g
  header 6 8 00000003 h
object 30 64=a 82 a2 64
  unit 0 4 00000000 00000000 a
  header 1 3 00000000 -
image 30 64=a c2@ffffffff=h 64=b c2 64=c
  unit 0 2 00000000 00000000 a
  excluded 1 2 ffffffff h
  unit 2 4 00000000 00000000 b
  excluded 3 4 00000000 -
  unit 4 5 00000000 00000030 c
# header ranges and blocks are counted apart
object 30 64=a 82=h c0 a2 e0
  unit 0 5 00000000 00000030 a
  header 1 4 00000000 h
# a stab outside every unit
object 30 80=x:t1
  refused 50 0 0
object 30 05=_x 20
  refused 50 1 0
object 30 64
  refused 50 0 0
object 30 64=a 64 64
  refused 50 2 0
object 30 64=a 64 44@1#7
  refused 50 2 0
object 30 64=a 64 64=b 64 ff
  refused 50 4 0
# a name that is to be continued and is not
object 30 64=a 80=x:\\
  refused 51 1 0
object 30 64=a 80=x:\\ 24=t1
  refused 51 1 0
object 30 64=a 80=x:\\ 05=_x 80=t1
  refused 51 1 0
object 30 64=a 80=x:\\ 64=b
  refused 51 1 0
object 30 64=a 80=x:\\ 80=t1\\ 24
  refused 51 2 0
object 30 64=a 20=x:\\
  refused 51 1 0
object 30 64=a 24=x:\\
  refused 51 1 0
object 30 64=a 26=x:\\
  refused 51 1 0
object 30 64=a 28=x:\\
  refused 51 1 0
object 30 64=a 2c=x:\\
  refused 51 1 0
object 30 64=a 40=x:\\
  refused 51 1 0
object 30 64=a a0=x:\\
  refused 51 1 0
# in a stab that carries no symbol it is a byte of the name
object 30 64=a\\ 2a=\\ 3c=\\ 44=\\ 84=\\ c0=\\ e0=\\ 82=h\\ a2=\\ 22=\\
  unit 0 10 00000000 00000030 a\\
  header 7 9 00000000 h\\
# a header that is not closed
object 30 64=a 82=h
  refused 52 1 0
object 30 64=a 82=h 82=g a2
  refused 52 1 0
object 30 64=a 82=h 82=g
  refused 52 1 0
object 30 64=a 82=h a2 82=g
  refused 52 3 0
object 30 64=a 82=h 64
  refused 52 1 0
object 30 64=a 82=h 64=b a2
  refused 52 1 0
object 30 64=a 82=h 64=d/ 64=b
  refused 52 1 0
# none to close
object 30 64=a a2
  refused 53 1 0
object 30 64=a 82=h a2 a2
  refused 53 3 0
object 30 64=a 82=h a2 64=b a2
  refused 53 4 0
image 30 64=a c2=h a2
  refused 53 2 0
# brackets that do not match
object 30 64=a e0
  refused 54 1 0
object 30 64=a c0
  refused 54 1 0
object 30 64=a c0 c0 e0
  refused 54 1 0
object 30 64=a c0 c0
  refused 54 1 0
object 30 64=a c0 e0 e0
  refused 54 3 0
object 30 64=a c0 e0 c0
  refused 54 3 0
object 30 64=a c0 64 05
  refused 54 1 0
object 30 64=a c0 64=b e0
  refused 54 1 0
# an excluded header, in an object alone
object 30 64=a c2=h
  refused 55 1 0
object 30 64=a c2=h c2=h
  refused 55 1 0
image 30 64=a c2=h
  unit 0 2 00000000 00000030 a
  excluded 1 2 00000000 h
# two at one entry, outside a unit: the smaller number
object 30 80=x:\\
  refused 50 0 0
object 30 a2
  refused 50 0 0
object 30 82=h
  refused 50 0 0
object 30 c0
  refused 50 0 0
object 30 e0
  refused 50 0 0
object 30 c2=h
  refused 50 0 0
image 30 c2=h
  refused 50 0 0
# two at different entries: the smaller entry, whichever is told of it
object 30 64=a 80=x:\\ 64 44
  refused 51 1 0
object 30 64=a 82=h 64 44
  refused 52 1 0
object 30 64=a a2 64 44
  refused 53 1 0
object 30 64=a c0 64 44
  refused 54 1 0
object 30 64=a e0 64 44
  refused 54 1 0
object 30 64=a c2=h 64 44
  refused 55 1 0
object 30 44 64=a 80=x:\\
  refused 50 0 0
object 30 44 64=a 82=h
  refused 50 0 0
object 30 44 64=a a2
  refused 50 0 0
object 30 44 64=a c0
  refused 50 0 0
object 30 44 64=a c2=h
  refused 50 0 0
object 30 64=a 80=x:\\ 82=h
  refused 51 1 0
object 30 64=a 80=x:\\ a2
  refused 51 1 0
object 30 64=a 80=x:\\ c0
  refused 51 1 0
object 30 64=a 80=x:\\ e0
  refused 51 1 0
object 30 64=a 80=x:\\ c2=h
  refused 51 1 0
object 30 64=a 82=h 80=x:\\
  refused 52 1 0
object 30 64=a 82=h 64=b a2
  refused 52 1 0
object 30 64=a 82=h c0
  refused 52 1 0
object 30 64=a 82=h e0
  refused 52 1 0
object 30 64=a 82=h c2=g
  refused 52 1 0
object 30 64=a a2 80=x:\\
  refused 53 1 0
object 30 64=a a2 82=h
  refused 53 1 0
object 30 64=a a2 c0
  refused 53 1 0
object 30 64=a a2 e0
  refused 53 1 0
object 30 64=a a2 c2=h
  refused 53 1 0
object 30 64=a c0 80=\\
  refused 54 1 0
object 30 64=a c0 82=h
  refused 54 1 0
object 30 64=a c0 a2
  refused 54 1 0
object 30 64=a c0 c2=h
  refused 54 1 0
object 30 64=a e0 80=x:\\
  refused 54 1 0
object 30 64=a e0 82=h
  refused 54 1 0
object 30 64=a e0 a2
  refused 54 1 0
object 30 64=a e0 c2=h
  refused 54 1 0
object 30 64=a c2=h 80=x:\\
  refused 55 1 0
object 30 64=a c2=h 82=h
  refused 55 1 0
object 30 64=a c2=h a2
  refused 55 1 0
object 30 64=a c2=h c0
  refused 55 1 0
object 30 64=a c2=h e0
  refused 55 1 0
image 30 64=a c2=h e0
  refused 54 2 0
# 65,535 headers in a unit, and one more
world 30 64=a
* 65535 c2=h
+ a2
again
  refused 53 65536 0
world 30 64=a
* 65536 c2=h
+ a2
again
  refused 57 65536 0
world 30 64=a
* 65535 c2=h
+ 82=g
again
  refused 52 65536 0
+ a2
again
  refused 57 65536 0
world 30 64=a
* 40000 c2=h
+ 64=b
* 40000 c2=h
+ a2
again
  refused 53 80002 0
# 1,048,576 bytes in a string, and one more
world 30 64=a
x 1048576 80
+ a2
again
  refused 53 2 0
world 30 64=a
x 1048577 80
+ a2
again
  refused 58 1 0
world 30 64=a
x 1048575 80=\\
+ 80=\\ 80=x a2
again
  refused 53 4 0
world 30 64=a
x 1048575 80=\\
+ 80=\\ 80=xx a2
again
  refused 58 1 0
world 30 64=a
x 1048577 80=\\
+ 24
again
  refused 51 1 0
world 30 64=a
x 1048570 80=\\
+ 80=xxxxxxx\\ 24
again
  refused 58 1 0
world 30 64=a
x 1048577 44
+ a2
again
  refused 53 2 0
# strings are read behind all of these
world 30 64=a 80=y:?
? units
  refused 40 1 2
+ 64 80=x:t1
? units
  refused 50 3 0
world 30 64=a 80=y:? 80=x:\\
? units
  refused 51 2 0
world 30 64=a 80=y:? 82=h
? units
  refused 52 2 0
world 30 64=a 80=y:? a2
? units
  refused 53 2 0
world 30 64=a 80=y:? c0
? units
  refused 54 2 0
world 30 64=a 80=y:? c2=h
? units
  refused 55 2 0
world 30 64=a 80=y:? 64=b
x 1048577 80
? units
  refused 58 3 0
# the place is that of the run's first entry, within that of the joined string
world 30 64=a 44#1 80=x:t(0\\ 80=,2)=\\ 80=?
? units
  refused 40 2 9
world 30 64=a 80=x:t(0\\ 80
? units
  refused 41 1 5
world 30 64=a 80=x
? units
  refused 41 1 1
world 30 64=a
x 1048576 80
? units
  refused 41 1 1048576
world 30 64=a 80=x:t(0,1)=\\
+ 80=**************************************************\\
+ 80=************************************************(0,1)
? units
  0 00000000 00000030 a
world 30 64=a 80=x:t(0,1)=\\
+ 80=**************************************************\\
+ 80=*************************************************(0,1)
? units
  refused 42 1 108
# the first of them over all units and files
world 30 64=a 80=y:t1 64=b 80=y:? 80=z
? units
  refused 40 3 2
world 30 64=a 82=h 80=y a2 80=z:?
? units
  refused 41 2 1
# a name that carries no symbol, and an empty string, are not read
world 30 64=a 44=y:? 3c=y 22=? 80 24=\\ 24
? units
  0 00000000 00000030 a
# each stab of a unit, read into files and body
image 30 64@5=a 3c#1=gcc 80=i:t(0,1)=r(0,1);0;9; 82@1=h 80=s:\\ 80=Tt(1,1)=*(0,1) 44@6#2 c2@2=g a2 24@5!1#3=f:F(0,1)
  unit 0 10 00000005 00000030 a
  header 3 9 00000001 h
  excluded 7 8 00000002 g
+ 80=\\ 80 80@4=x:(1,1) 05@9=_f 84@6=h 64@c
unit 0
  unit 00000005 0000000c a
  file a
  symbol i:t(0,1)=r(0,1);0;9;
  symbol f:F(0,1)
  symbol x:(1,1)
  file h
  symbol s:Tt(1,1)=*(0,1)
  file g
  item 3c 00 1 00000000 raw gcc
  item 44 00 2 00000006 raw -
  item 24 01 3 00000005 symbol f:F(0,1)
  item 80 00 0 00000000 raw -
  item 80 00 0 00000004 symbol x:(1,1)
  item 84 00 0 00000006 raw h
# the fields of a run are those of its first entry
world 30 64@5=d/ 64@5=a a0@4#1!2=v\\ a0@8#3!4=:p\\ a0@9#ffff!ff=(0,1) 64@7=b 82=h 82=g 80=x:t1 a2 c0@ffffffff#ffff!ff e0 a2 44
unit 0
  unit 00000005 00000007 d/a
  file d/a
  symbol v:p(0,1)
  item a0 02 1 00000004 symbol v:p(0,1)
unit 1
  unit 00000007 00000030 b
  file b
  file h
  file g
  symbol x:t1
  item c0 ff 65535 ffffffff raw -
  item e0 00 0 00000000 raw -
  item 44 00 0 00000000 raw -
# the files of stabs between, inside and behind headers, also excluded ones
world 30 64=a c2=e 82=h 80=x:t(2,1)=*1 c2=g 80=y:t(2,2)=*1 82=i 80=z:t(4,1)=*1 a2 80=w:t(2,3)=*1 a2 80=v:t1
unit 0
  unit 00000000 00000030 a
  file a
  symbol v:t1
  file e
  file h
  symbol x:t(2,1)=*1
  symbol y:t(2,2)=*1
  symbol w:t(2,3)=*1
  file g
  file i
  symbol z:t(4,1)=*1
# a unit is read though another one is refused
world 30 64=a 80=y:? 64=b 80=y:t1
unit 0
  refused 40 1 2
unit 1
  unit 00000000 00000030 b
  file b
  symbol y:t1
# the entries of kind 3, 5, 7 and 9
world 30 05@2=_x 04@3=_y 03@4=_z 64=a 09@5=_b 07@6=_d 02@1=_l 01@9=_c 08@7=_e 06@8=_f =_n 25=x:t1 05@ffffffff
externals
  00000002 _x
  00000004 _z
  00000005 _b
  00000006 _d
  ffffffff -
world 30 64=a
externals
# definitions: the key's own file, file 0, the others upwards
world 30 64=m 80=a:t(0,1)=r(0,1);0;9; 80=b:t(1,9)=*1 80=c:t(2,9)=xsA: 80=d:t(0,7)=xsB: 80=e:t(0,7)=s4v:(0,1),0,32;; 80=f:t5=*1 82=h
+ 80=a:t(1,1)=*(0,1) 80=b:T(2,1)=xsc: 80=c:t(2,5)=*1 80=d:t(3,8)=*1 80=e:t(0,1)=k1 a2 82=i 80=d:t(2,1)=*(1,1) 80=e:t(2,1)=k(1,1)
+ 80=f:Tt(0,2)=(2,2)=f(1,1) 80=g:t(2,5)=B1 80=h:t(2,9)=xuB: 80=i:t(3,8)=k1 80=j:t(1,9)=k1 80=k:(0,14)=*2 a2 24=l:F(0,15)=k2
definition 0 0 1
  r(0,1);0;9;
definition 0 1 1
  *(0,1)
definition 0 2 1
  *(1,1)
definition 0 2 5
  B1
definition 0 3 8
  *1
definition 0 1 9
  *1
definition 0 0 2
  (2,2)=f(1,1)
definition 0 2 2
  f(1,1)
definition 0 0 5
  *1
definition 0 0 7
  s4v:(0,1),0,32;;
definition 0 2 9
  xuB:
definition 0 0 14
  *2
definition 0 0 15
  k2
definition 0 0 3
  none
definition 0 1 5
  none
definition 0 4294967295 4294967295
  none
# names: the first type symbol of the key's own file
type_name 0 0 1
  a:t(0,1)=r(0,1);0;9;
type_name 0 1 1
  a:t(1,1)=*(0,1)
type_name 0 2 1
  d:t(2,1)=*(1,1)
type_name 0 0 5
  f:t5=*1
type_name 0 0 7
  d:t(0,7)=xsB:
type_name 0 0 2
  none
type_name 0 2 2
  none
type_name 0 1 9
  none
type_name 0 3 8
  none
type_name 0 0 14
  none
# tags and typedefs: the first in files 0, 1, 2 and so on
find_tag 0 b
  2 1
find_tag 0 f
  0 2
find_tag 0 a
  none
find_tag 0 zz
  none
find_typedef 0 a
  0 1
find_typedef 0 b
  1 9
find_typedef 0 d
  0 7
find_typedef 0 f
  0 5
find_typedef 0 i
  3 8
find_typedef 0 k
  none
find_typedef 0 l
  none
find_typedef 0 zz
  none
# listings
listing 0 2 1
  2 1
  1 1
  0 1
listing 0 0 2
  0 2
  2 2
  1 1
  0 1
listing 0 2 2
  2 2
  1 1
  0 1
listing 0 9 9
  9 9
listing 0 1 9
  1 9
  0 1
# in a symbol outermost first, and from left to right; a reference names, and defines nothing
world 30 64=a 80=a:t(0,9)=*(0,10)=f(0,10)=k1 80=b:tar(0,11)=k1;0;9;(0,11)=B1 80=c:t(0,12)=(0,13)=xsq: 80=d:t(0,1) 80=e:Tt(0,1)=k3
+ 80=n:Ts4v:1,0,32;; 80=n:T(0,5) 80=n:T(0,6) 80=n:t*1 80=n:Tt(0,7) 80=:T8 80=v:(0,16)=k1
definition 0 0 10
  f(0,10)=k1
definition 0 0 11
  k1
definition 0 0 12
  (0,13)=xsq:
definition 0 0 13
  xsq:
definition 0 0 1
  k3
type_name 0 0 1
  d:t(0,1)
type_name 0 0 5
  n:T(0,5)
type_name 0 0 16
  none
find_tag 0 n
  0 5
find_typedef 0 n
  0 7
find_tag 0 e
  0 1
find_typedef 0 e
  0 1
find_tag 0\x20
  0 8
find_typedef 0\x20
  none
listing 0 0 12
  0 12
  0 13
listing 0 0 13
  0 13
listing 0 0 5
  0 5
# the keys on the surface of a definition in order, each once
world 30 64=a 80=n:T(0,2)=s12val:(0,1),0,32;next:(0,3)=*(0,2),32,32;g:(1,1),64,32;; 82=h 80=p:t(1,1)=*(1,2) 80=q:t(1,2)=far(0,3);0;9;(1,1) a2
listing 0 0 2
  0 2
  0 1
  0 3
  1 1
  1 2
listing 0 1 1
  1 1
  1 2
  0 3
  0 2
  0 1
listing 0 0 3
  0 3
  0 2
  0 1
  1 1
  1 2
";

#[test]
fn outlines_units_and_types_answer(rt: HostRuntime) {
    all_hold(&rt, rt.alloc(), OUTLINES);
}
