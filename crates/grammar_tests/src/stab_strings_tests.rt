use crate::holds::none_fails;
use crate::stab_strings::{reads_all, refuses_all};

// Strings that begin to spell a symbol and go wrong, each with the mark of its first fault; and strings next to them that are right.

/// For each form of a type; for structures and unions; for each symbol descriptor, and for names; and for numbers up to 2147483647,
/// files up to 65535, and numerals of 40 digits.
const WRONG: &[u8] = b"
# ---- each form of a type

# `n`
x:t
   ^41 no number
x:t01
    ^40 a digit behind a number that is 0
x:t00
    ^40 two zeros
x:t7a
    ^40 a letter behind the number
x:t7;
    ^40 a semicolon behind the number
x:t 7
   ^40 a blank before the number
x:t+7
   ^40 a plus sign
x:t7,8
    ^40 two numbers without brackets
x:t0x7
    ^40 hexadecimal digits
x:t2147483648
            ^40 greater than the greatest number

# `(file,number)`
x:t(
    ^41 no file
x:t()
    ^40 no file, but a bracket
x:t(0
     ^41 no comma
x:t(0)
     ^40 one number in brackets
x:t(0;1)
     ^40 a semicolon for the comma
x:t(0,
      ^41 no number
x:t(0,)
      ^40 no number, but a bracket
x:t(0,1
       ^41 no bracket at the end
x:t(0,1;
       ^40 a semicolon for the bracket
x:t(0,1))
        ^40 one bracket too many
x:t(1,2,3)
       ^40 three numbers
x:t((0,1))
    ^40 brackets in brackets
x:t(00,1)
     ^40 a file with a leading zero
x:t(0,01)
       ^40 a number with a leading zero
x:t(-1,2)
    ^40 a negative file
x:t(0,-1)
      ^40 a negative number
x:t( 0,1)
    ^40 a blank before the file
x:t(0, 1)
      ^40 a blank before the number
x:t(65536,1)
        ^40 greater than the greatest file
x:t(65535,2147483648)
                   ^40 greater than the greatest number

# `number=type`
x:t7=
     ^41 no type
x:t(0,1)=
         ^41 no type behind a pair
x:t7==8
     ^40 two equals signs
x:t7=;
     ^40 no type, but a semicolon
x:t(0,1)=)
         ^40 no type, but a bracket
x:t7=t8
     ^40 a symbol descriptor
x:t=8
   ^40 no number
x:t7 =8
    ^40 a blank before the equals sign
x:t7= 8
     ^40 a blank behind the equals sign
x:t7=8=
       ^41 a definition in a definition, and no type
x:t7=8;
      ^40 a semicolon behind the type
x:t07=8
    ^40 a number with a leading zero
x:t*7=
      ^41 a definition behind a pointer, and no type
x:t(0,1=2)
       ^40 an equals sign in brackets
x:t-7=8
     ^40 a definition of a negative number

# `*type`
x:t*
    ^41 no type
x:t**
     ^41 two stars, and no type
x:t*;
    ^40 no type, but a semicolon
x:t*)
    ^40 no type, but a bracket
x:t7*
    ^40 a star behind the type
x:t*7*
     ^40 another star behind the type
x:t* 7
    ^40 a blank before the type
x:t*t7
    ^40 a symbol descriptor
x:t*07
     ^40 a number with a leading zero
x:t&7
   ^40 another mark

# `ftype`
x:tf
    ^41 no type
x:tff
     ^41 two letters, and no type
x:tf;
    ^40 no type, but a semicolon
x:tf()
     ^40 brackets without a number
x:tf(7)
      ^40 brackets round one number
x:tfF7
    ^40 a symbol descriptor
x:tf7;
     ^40 a semicolon behind the type
x:tf7f
     ^40 a letter behind the type
x:tf7,8
     ^40 a comma behind the type

# `ktype`
x:tk
    ^41 no type
x:tkk
     ^41 two letters, and no type
x:tk7=
      ^41 a definition without a type
x:tk;
    ^40 no type, but a semicolon
x:tk,7
    ^40 a comma before the type
x:tk=7
    ^40 an equals sign before the type
x:tK7
   ^40 a capital letter
x:tkK7
    ^40 a capital letter behind the small one
x:tk7k
     ^40 a letter behind the type

# `Btype`
x:tB
    ^41 no type
x:tBk
     ^41 a letter of a constant type, and no type
x:tB(0
      ^41 half a pair
x:tB;
    ^40 no type, but a semicolon
x:tB:
    ^40 no type, but a colon
x:tb7
   ^40 a small letter
x:tBb7
    ^40 a small letter behind the capital one
x:tB7B
     ^40 a letter behind the type

# `rtype;low;high;`, cut off at each place
x:tr
    ^41 no type
x:tr7
     ^41 no semicolon behind the type
x:tr7;
      ^41 no bounds
x:tr7;0
       ^41 no semicolon behind the low bound
x:tr7;-
       ^41 a sign without digits
x:tr7;0;
        ^41 no high bound
x:tr7;0;J
         ^41 no semicolon behind J
x:tr7;0;9
         ^41 no semicolon at the end

# `rtype;low;high;`
x:tr;
    ^40 no type, but a semicolon
x:tr7,0;9;
     ^40 a comma behind the type
x:tr7;;
      ^40 no low bound, but a semicolon
x:tr7;0,9;
       ^40 a comma behind the low bound
x:tr7;0;;
        ^40 no high bound, but a semicolon
x:tr7;0;9,
         ^40 a comma at the end
x:tr7;0;9;;
          ^40 one semicolon too many
x:tr7;0;9;7
          ^40 a number behind the range
x:tr7;-;9;
       ^40 a sign without digits
x:tr7;--1;9;
       ^40 two signs
x:tr7;+1;9;
      ^40 a plus sign
x:tr7;-J;9;
       ^40 a sign before J
x:tr7;JJ;9;
       ^40 two letters J
x:tr7;J0;9;
       ^40 a digit behind J
x:tr7;1J;9;
       ^40 J behind a digit
x:tr7;0;9J;
         ^40 J behind the digits of the high bound
x:tr7;j;9;
      ^40 a small letter
x:tr7;0x1;9;
       ^40 hexadecimal digits
x:tr7; 0;9;
      ^40 a blank before a bound

# `artype;low;high;item`
x:ta
    ^41 no index
x:tar
     ^41 no type of the index
x:tar7
      ^41 no semicolon behind the index type
x:tar7;
       ^41 no bounds
x:tar7;0
        ^41 no semicolon behind the low bound
x:tar7;0;
         ^41 no high bound
x:tar7;0;J
          ^41 no semicolon behind J
x:tar7;0;9;
           ^41 no item type
x:tarr7;0;9;
            ^41 a range as index, and no bounds
x:tar7;0;9;a
            ^41 an array of arrays, and no index
x:ta7
    ^40 an index that is no range
x:ta;
    ^40 no index, but a semicolon
x:tas4;
    ^40 a structure as index
x:tar;
     ^40 no index type, but a semicolon
x:tar7,
      ^40 a comma behind the index type
x:tar7;;
       ^40 no low bound, but a semicolon
x:tar7;0:
        ^40 a colon behind the low bound
x:tar7;J;-;8
          ^40 a sign without digits
x:tar7;0;9;;
           ^40 no item type, but a semicolon
x:tar7;0;9;)
           ^40 no item type, but a bracket
x:tar7;0;9;8;
            ^40 a semicolon behind the item type

# `e`, choices `name:value,`, `;`
x:te
    ^41 no choices
x:tea
     ^41 no colon
x:tea:
      ^41 no value
x:tea:0
       ^41 no comma
x:tea:0,
        ^41 no semicolon
x:tea:0,b:
          ^41 no value of the second choice
x:tea;
     ^40 a semicolon in a name
x:tea:;
      ^40 no value, but a semicolon
x:tea:,;
      ^40 no value, but a comma
x:tea:0;
       ^40 no comma, but a semicolon
x:tea:0,;;
         ^40 one semicolon too many
x:te;7
     ^40 a number behind the enumeration
x:tea:J,;
      ^40 J for a value
x:tea:-,;
       ^40 a sign without digits
x:tea:-J,;
       ^40 a sign before J
x:tea:--1,;
       ^40 two signs
x:tea:0 ,;
       ^40 a blank behind the value
x:tea: 0,;
      ^40 a blank before the value
x:tea:0x1,;
       ^40 hexadecimal digits
x:tea=0,;
        ^40 an equals sign for the colon, so that the name goes on
x:tea:0,b;
         ^40 a semicolon in the name of the second choice
x:tea:0,,;
         ^40 a comma as the second name, and no colon

# `xs`, `xu` or `xe`, a name, `:`
x:tx
    ^41 no letter
x:txs
     ^41 no name of a structure
x:txu
     ^41 no name of a union
x:txsa
      ^41 no colon
x:txe;a
       ^41 a semicolon in the name, and no colon
x:txsa=7
        ^41 an equals sign in the name, and no colon
x:txa:
    ^40 another letter
x:tx:
    ^40 no letter, but a colon
x:txS:
    ^40 a capital letter
x:txx:
    ^40 two letters x
x:tXs:
   ^40 a capital X
x:txsa::
       ^40 two colons
x:txsa:7
       ^40 a number behind the name
x:txsa:;
       ^40 a semicolon behind the name

# `@sn;type`
x:t@
    ^41 no letter
x:t@s
     ^41 no size
x:t@s8
      ^41 no semicolon
x:t@s8;
       ^41 no type
x:t@s8;@
        ^41 another attribute, and no letter
x:t@8;7
    ^40 no letter, but a size
x:t@a8;7
    ^40 another attribute
x:t@S8;7
    ^40 a capital letter
x:t@s;7
     ^40 no size, but a semicolon
x:t@s8,7
      ^40 a comma behind the size
x:t@s8;;
       ^40 no type, but a semicolon
x:t@s08;7
      ^40 a size with a leading zero
x:t@s-8;7
     ^40 a negative size
x:t@s8;7;
        ^40 a semicolon behind the type
x:t@s2147483648;7
              ^40 greater than the greatest number

# `-n;`
x:t-
    ^41 no number
x:t-7
     ^41 no semicolon
x:t-;
    ^40 no number, but a semicolon
x:t-7,
     ^40 a comma for the semicolon
x:t-07;
     ^40 a leading zero
x:t--7;
    ^40 two signs
x:t-7;;
      ^40 one semicolon too many
x:t-7;8
      ^40 a number behind it
x:t- 7;
    ^40 a blank behind the sign
x:t-J;
    ^40 J for the number
x:t-(0,1);
    ^40 a pair
x:t-2147483648;
             ^40 greater than the greatest number

# `Ra;b;c;`
x:tR
    ^41 no number
x:tR1
     ^41 no semicolon behind the first number
x:tR1;
      ^41 one number
x:tR1;8
       ^41 no semicolon behind the second number
x:tR1;8;
        ^41 two numbers
x:tR1;8;0
         ^41 no semicolon at the end
x:tR;
    ^40 no number, but a semicolon
x:tR1,
     ^40 a comma behind the first number
x:tR1;;
      ^40 no second number, but a semicolon
x:tR1;8,0;
       ^40 a comma behind the second number
x:tR1;8;;
        ^40 no third number, but a semicolon
x:tR1;8;0;;
          ^40 one semicolon too many
x:tR01;8;0;
     ^40 a leading zero in the first number
x:tR1;08;0;
       ^40 a leading zero in the second number
x:tR1;8;00;
         ^40 a leading zero in the third number
x:tR-1;8;0;
    ^40 a negative number
x:tR1;J;0;
      ^40 J for a number

# Behind a definition of a pair
x:t(0,1);
        ^40 a semicolon behind the type
x:*(0,1)
  ^40 no descriptor before a pointer
x:T(0,1)=s4;9:(0,1),0,1;;
            ^40 a digit that would begin a first name
x:T(0,1)=s4a;:(0,1),0,1;;
            ^40 a semicolon in a name
x:T(0,1)=ered:J,;
              ^40 J for a value

# ---- structures and unions

# `s`, the size, fields `name:type,bit,bits;`, `;`, cut off at each place
x:ts
    ^41 no size
x:ts4
     ^41 no fields
x:ts4a
      ^41 no colon
x:ts4a:
       ^41 no type
x:ts4a:7
        ^41 no comma behind the type
x:ts4a:7,
         ^41 no bit position
x:ts4a:7,0
          ^41 no comma behind the bit position
x:ts4a:7,0,
           ^41 no bits
x:ts4a:7,0,8
            ^41 no semicolon behind the field
x:ts4a:7,0,8;
             ^41 no semicolon at the end
x:ts4a:7,0,8;b:7,8,8;
                     ^41 no semicolon behind two fields

# `s`, the size, fields `name:type,bit,bits;`, `;`
x:ts;
    ^40 no size, but a semicolon
x:tsa:7,0,8;;
    ^40 no size, but a name
x:ts-4;
    ^40 a negative size
x:ts4;;
      ^40 one semicolon too many
x:ts4;7
      ^40 a number behind the structure
x:ts4a;
      ^40 a semicolon in a name
x:ts4a7,0,8;;
           ^40 no colon, so that the name goes on to the semicolon
x:ts4a:;
       ^40 no type, but a semicolon
x:ts4a:J,0,8;;
       ^40 a letter that begins no type
x:ts4a:7;
        ^40 a semicolon behind the type
x:ts4a:7 ,0,8;;
        ^40 a blank behind the type
x:ts4a:7,,
         ^40 no bit position, but a comma
x:ts4a:7,-1,8;;
         ^40 a negative bit position
x:ts4a:7,00,8;;
          ^40 a bit position with a leading zero
x:ts4a:7,0;
          ^40 a semicolon behind the bit position
x:ts4a:7,0,;
           ^40 no bits, but a semicolon
x:ts4a:7,0,08;;
            ^40 bits with a leading zero
x:ts4a:7,0,8,
            ^40 a comma behind the bits
x:ts4a:7,0,8;;;
              ^40 one semicolon too many behind a field
x:ts4a:7,0,8;b:7,8;;
                  ^40 no bits in the second field

# `u` in place of `s`
x:tu
    ^41 no size
x:tu4
     ^41 no fields
x:tu4a:7,0,8
            ^41 no semicolon behind the field
x:tu4a:7,0,8;
             ^41 no semicolon at the end
x:tu;
    ^40 no size, but a semicolon
x:tU4;
   ^40 a capital letter
x:tu+4;
    ^40 a plus sign
x:tu4;;
      ^40 one semicolon too many
x:tu4a;
      ^40 a semicolon in a name
x:tu4a:,0,8;;
       ^40 no type, but a comma
x:tu4a:7;0,8;;
        ^40 a semicolon behind the type
x:tu4a:7,0,8:
            ^40 a colon behind the bits
x:tu04;
     ^40 a size with a leading zero

# All digits behind `s` or `u` belong to the size: so the name of the first field begins with none
x:ts01
     ^40 a digit behind a size that is 0
x:ts02:7,0,8;;
     ^40 a first name that would begin with a digit, behind 0
x:ts2147483648;
             ^40 greater than the greatest number
x:ts21474836472:7,0,8;;
              ^40 a first name that would begin with a digit, behind the greatest number
x:tu02:7,0,8;;
     ^40 the same in a union, behind 0
x:tu2147483648;
             ^40 greater than the greatest number
x:tu21474836472:7,0,8;;
              ^40 the same in a union, behind the greatest number
x:ts4a:7,0,2147483648;;
                    ^40 bits greater than the greatest number
x:ts4a:7,2147483648,8;;
                  ^40 a bit position greater than the greatest number

# ---- symbol descriptors, and names

# No descriptor: the type begins with a digit, `(` or `-`
x:
  ^41 nothing behind the colon
x:(0,1
      ^41 half a pair
x:-
   ^41 a sign without a number
x:-7
    ^41 a negative number without its semicolon
x:7=
    ^41 a definition without a type
x:07
   ^40 a leading zero
x:7;
   ^40 a semicolon behind the type
x:2147483648
           ^40 greater than the greatest number
x:*7
  ^40 a pointer
x:k7
  ^40 a constant type
x:B7
  ^40 a volatile type
x:s4;
  ^40 a structure
x:u4;
  ^40 a union
x:e;
  ^40 an enumeration
x:xsa:
  ^40 a cross reference
x:@s8;7
  ^40 a size attribute
x:R1;8;0;
  ^40 a floating point type
x::7
  ^40 another colon
x:;
  ^40 a semicolon
x:=7
  ^40 an equals sign
x: 7
  ^40 a blank
x:+7
  ^40 a plus sign

# Letters that are no descriptor here. Most are one in other languages than C, or on other systems
x:b7
  ^40 a based variable
x:c=i7
  ^40 a constant
x:C7
  ^40 a bound of a conformant array
x:d7
  ^40 a variable in a floating point register
x:D7
  ^40 a parameter in a floating point register
x:I7
  ^40 an internal procedure
x:J7
  ^40 an internal function
x:L7
  ^40 a label
x:m7
  ^40 a module
x:Q7
  ^40 a static procedure
x:x7
  ^40 a conformant array
x:X7
  ^40 the variable that a function returns
x:A7
  ^40 a capital letter for a small one
x:g7
  ^40 a small letter for a capital one

# `f` and `F`
x:f
   ^41 no type
x:ff
    ^41 a function as the type, and no type
x:f7=
     ^41 a definition without a type
x:f(0,1
       ^41 half a pair
x:f;
   ^40 no type, but a semicolon
x:f07
    ^40 a leading zero
x:f7;
    ^40 a semicolon behind the type
x:fF7
   ^40 two descriptors

x:F
   ^41 no type
x:Ff
    ^41 a function as the type, and no type
x:F(0,1
       ^41 half a pair
x:F;
   ^40 no type, but a semicolon
x:FF7
   ^40 two descriptors
x:F(0,1);
        ^40 a semicolon behind the type
x:F7,8
    ^40 a comma behind the type

# `G`, `S` and `V`
x:G
   ^41 no type
x:G*
    ^41 a pointer without a type
x:G-7
     ^41 a negative number without its semicolon
x:G;
   ^40 no type, but a semicolon
x:GG7
   ^40 two descriptors
x:G7;
    ^40 a semicolon behind the type

x:S
   ^41 no type
x:Ss
    ^41 a structure without a size
x:S,7
   ^40 a comma before the type
x:S:
   ^40 no type, but a colon
x:SS7
   ^40 two descriptors
x:S7s
    ^40 a letter behind the type
x:S(65536,1)
        ^40 greater than the greatest file

x:V
   ^41 no type
x:V7=
     ^41 a definition without a type
x:V=7
   ^40 an equals sign before the type
x:VV7
   ^40 two descriptors
x:VS7
   ^40 two descriptors, the other of a file
x:V7V
    ^40 a letter behind the type

# `p`, `P`, `a` and `v`
x:p
   ^41 no type
x:p(0
     ^41 half a pair
x:p,7
   ^40 a comma before the type
x:p 7
   ^40 a blank before the type
x:pp7
   ^40 two descriptors
x:pP7
   ^40 two descriptors, the other of a register
x:pF7
   ^40 two descriptors, the other of a function
x:p7p
    ^40 a letter behind the type

x:P
   ^41 no type
x:P@
    ^41 a size attribute without its letter
x:P;
   ^40 no type, but a semicolon
x:PP7
   ^40 two descriptors
x:Pp7
   ^40 two descriptors, the other of a parameter in memory
x:P7;
    ^40 a semicolon behind the type

x:a
   ^41 no type
x:ar
    ^41 a range, and no type
x:aa
    ^41 an array, and no index
x:a;
   ^40 no type, but a semicolon
x:aa7
    ^40 an array whose index is no range
x:ap7
   ^40 two descriptors
x:ar7;0;9;8
          ^40 the letter of an array is the descriptor, so a range ends before the item

x:v
   ^41 no type
x:v-
    ^41 a sign without a number
x:v;
   ^40 no type, but a semicolon
x:vv7
   ^40 two descriptors
x:vV7
   ^40 two descriptors, the other of a variable
x:vp7
   ^40 two descriptors, the other of a parameter
x:v7v
    ^40 a letter behind the type

# `r`
x:r
   ^41 no type
x:rr
    ^41 a range, and no type
x:rR7
     ^41 a floating point type, cut off
x:rr7;0;9
         ^41 a range without its last semicolon
x:r;
   ^40 no type, but a semicolon
x:rP7
   ^40 two descriptors
x:r7;0;9;
    ^40 the letter of a range is the descriptor, so the type ends before the bounds
x:r7r
    ^40 a letter behind the type

# `t`, `T` and `Tt`
x:t
   ^41 no type
x:tt7
   ^40 two descriptors
x:tT7
   ^40 the letters of a tag and typedef in the other order
x:t;
   ^40 no type, but a semicolon
x:t:
   ^40 no type, but a colon
x:t=7
   ^40 an equals sign before the type
x:t7t
    ^40 a letter behind the type

x:T
   ^41 no type
x:T(0,1)=
         ^41 a definition without a type
x:T;
   ^40 no type, but a semicolon
x:TT7
   ^40 two descriptors
x:Tp7
   ^40 two descriptors, the other of a parameter
x:T7t
    ^40 a letter behind the type
x:T7T
    ^40 a capital letter behind the type

x:Tt
    ^41 no type
x:Tt(0,1)=
          ^41 a definition without a type
x:Tt;
    ^40 no type, but a semicolon
x:Ttt7
    ^40 three descriptors
x:TtT7
    ^40 three descriptors, the last a tag
x:Tt07
     ^40 a leading zero
x:Tt7;
     ^40 a semicolon behind the type

# The name of a symbol: any bytes but `:`, perhaps none
x
 ^41 no colon
int
   ^41 no colon behind three letters
a b;c=(
       ^41 no colon behind marks
x;t7
    ^41 a semicolon for the colon
x t7
    ^41 a blank for the colon
:
 ^41 an empty name, and nothing behind the colon
::
 ^40 an empty name, and two colons
::t7
 ^40 an empty name, two colons and a type
a::t7
  ^40 two colons behind a name
a:b:t7
  ^40 a colon ends the name

# ---- numbers, files and numerals past their limits

# The greatest number, and the first digit that makes it greater
x:t21474836470
             ^40 one digit more than the greatest number
x:t2147483650
            ^40 greater by its last two digits
x:t3000000000
            ^40 ten digits
x:t4294967296
            ^40 two to the 32nd power
x:t99999999999999999999
            ^40 twenty digits
x:t18446744073709551617
             ^40 one more than two to the 64th power
x:t2147483648=7
            ^40 in a definition
x:t7=2147483648
              ^40 behind a definition
x:tr2147483648;0;9;
             ^40 in the type of a range
x:tar7;0;9;2147483648
                    ^40 in the item of an array
x:t(0,2147483648)
               ^40 in a pair
x:tR2147483648;8;0;
             ^40 the first number of a floating point type
x:tR1;2147483648;0;
               ^40 the second
x:tR1;8;2147483648;
                 ^40 the third

# The greatest file, and the first digit that makes it greater
x:t(65536,1)
        ^40 one more
x:t(65540,1)
        ^40 greater by its last two digits
x:t(70000,1)
        ^40 five digits
x:t(99999,1)
        ^40 five nines
x:t(655350,1)
         ^40 one digit more than the greatest file
x:t(4294967296,1)
         ^40 two to the 32nd power
x:t(2147483647,1)
         ^40 the greatest number
x:(65536,1)
       ^40 without a descriptor
x:t(65535,1)=(65536,1)
                  ^40 behind a definition

# The 41st digit of a numeral is wrong
x:tr7;01234567890123456789012345678901234567890;9;
                                              ^40 the low bound of a range
x:tr7;-01234567890123456789012345678901234567890;9;
                                               ^40 with a sign
x:tr7;0;01234567890123456789012345678901234567890;
                                                ^40 the high bound of a range
x:tr7;0;-01234567890123456789012345678901234567890;
                                                 ^40 with a sign
x:tar7;01234567890123456789012345678901234567890;9;8
                                               ^40 the low bound of an array
x:tar7;0;01234567890123456789012345678901234567890;8
                                                 ^40 the high bound of an array
x:tea:01234567890123456789012345678901234567890,;
                                              ^40 the value of a choice
x:tea:-01234567890123456789012345678901234567890,;
                                               ^40 with a sign
x:tr7;00000000000000000000000000000000000000000;9;
                                              ^40 zeros
x:tr7;0123456789012345678901234567890123456789
                                              ^41 40 digits, and no semicolon
x:tr7;0123456789012345678901234567890123456789J
                                              ^40 40 digits, and J
";

#[test]
fn strings_go_wrong(rt: HostRuntime) {
    none_fails(&rt, &refuses_all(rt.alloc(), WRONG));
}

const RIGHT: &[u8] = b"
# All digits behind `s` or `u` belong to the size: so the name of the first field begins with none
x:ts2147483647;
x:ts2147483647:7,0,8;;
x:ts42:7,0,8;;
x:ts4:7,0,8;;
x:ts0;
x:ts4-2:7,0,8;;
x:ts4a2:7,0,8;;
x:ts4a:7,0,8;2:7,8,8;;
x:ts4a:7,2147483647,2147483647;;
x:tu2147483647;
x:tu4a:7,0,8;2:7,8,8;;
x:tu0:7,0,0;;

# Each descriptor, with the types that begin with a letter of a descriptor too
x:7
x:(0,1)
x:-7;
x:7=*8
x:f7
x:ff7
x:F7
x:Ff7
x:G7
x:GR1;8;0;
x:S7
x:Ss4;
x:V7
x:VB7
x:p7
x:pf7
x:P7
x:P-7;
x:r7
x:rr7;0;9;
x:a7
x:ar7;0;9;
x:aar7;0;9;8
x:v7
x:vu4;
x:t7
x:tf7
x:T7
x:T*7
x:Tt7
x:Tt*7

# The name of a symbol: any bytes but `:`, perhaps none
:t7
:7
;:t7
a b:t7
t:t7
Tt:t7
7:t7
(0,1):t7
=*;,-:t7
^:t7

# The names of fields, choices and cross references, perhaps empty
x:ts4:7,0,8;;
x:ts4:7,0,8;:7,8,8;;
x:ts4,:7,0,8;;
x:ts4 =:7,0,8;;
x:tu4(:7,0,8;;
x:te:0,;
x:te:0,:1,;
x:te7:0,;
x:te,,:0,;
x:te -:0,;
x:txs:
x:txu:
x:txe:
x:txs;:
x:txu7;=,:
x:t7=xe :

# The greatest number, and the first digit that makes it greater
x:t2147483647
x:t2147483647=7
x:t(0,2147483647)
x:2147483647
x:-2147483647;
x:t@s2147483647;7
x:tR2147483647;2147483647;2147483647;
x:t0
x:t-0;
x:t@s0;0
x:tR0;0;0;
x:t1000000000

# The greatest file, and the first digit that makes it greater
x:t(65535,1)
x:t(65535,2147483647)
x:t(0,0)
x:t(65535,0)=(65535,0)
x:(60000,1)

# A numeral has up to 40 digits, with leading zeros or without
x:tr7;0123456789012345678901234567890123456789;9;
x:tr7;-0123456789012345678901234567890123456789;9;
x:tr7;0;9999999999999999999999999999999999999999;
x:tr7;0;-9999999999999999999999999999999999999999;
x:tar7;0123456789012345678901234567890123456789;J;8
x:tar7;J;0123456789012345678901234567890123456789;8
x:tea:0123456789012345678901234567890123456789,;
x:tea:-0123456789012345678901234567890123456789,;
x:tr7;00;-0;
x:tr7;-00;000;
x:tr7;J;J;
x:tea:00,b:-0,;

# a string with every form
node:Tt(1,2)=s16a:*k(1,2),0,32;b:ar@s8;3=r3;-128;0177;;0;J;Bf-7;,32,32;c:u4d:ered:0,blue:-1,;,0,32;e:R1;8;0;,0,64;f:xsnode:,0,0;;,64,32;;
";

#[test]
fn strings_at_the_limits_are_read(rt: HostRuntime) {
    none_fails(&rt, &reads_all(rt.alloc(), RIGHT));
}
