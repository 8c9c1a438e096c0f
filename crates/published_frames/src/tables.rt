// The tables: what documents 003 and 000 print, and both sides of each limit. A row has a word that says what is asked, the line that is
// said, and the cases, whose words stand in it; data stands as it is in a frame, and has none of the marks | ; and /.
use crate::walk;

// The tables 1, 3, 7, 8, 4, with the indicators of document 02, and 5, the address that a trailer takes, and the data ranges of the eight kinds.
pub fn document_003(rt: HostRuntime) {
    walk(
        rt,
        b"
format;003 table 1: PF #: |0|239|240|255|
address;003 table 3: #: |EB|C9|C1|B9|B1|A9|FF|C8|
taken;003 6.2: predecessor #: |EB|C9|C1|B9|B1|A9|FF|C8|
written;003 table 7, #: |GPM 11;6;0;0;226;201;EB|GPM 21;6;0;0;225;235;C9|
written;003 table 8, #: |GPM 12;6;0;0;254;93;EB|GPM 13;3;0;0;254;95;EB|GPM 14;6;0;0;254;97;EB|GPM 15;6;0;0;254;99;EB|GPM 16;6;0;0;254;101;EB|\
MAM 11;6;0;0;253;221;EB|GPM 22;6;0;0;254;200;C9|EBS 23;3;0;0;254;96;C9|GPM 24;3;0;0;254;98;C9|GPM 25;6;0;0;254;100;C9|MAM 21;6;0;0;253;222;C9|
kind;003 table 4, 1 byte, raw #: |0;3;0;1|250;3;250;1|252;3;0;1|253;3;0;1|254;3;0;1|255;3;0;1|256;3;0;1|
kind;003 table 4, 2 bytes, raw #: |0;6;0;1|64255;6;64255;1|64512;6;0;1|65023;6;0;1|65024;6;0;1|65279;6;0;1|65280;6;0;1|65535;6;0;1|\
65536;6;0;1|
kind;document 02, raw # of kind #: |251;0;0;1|251;1;0;1|251;2;0;1|251;3;0;1|64256;4;0;1|64511;4;0;1|64256;5;0;1|64511;5;0;1|\
64256;6;0;1|64511;6;0;1|64256;7;0;1|64511;7;0;1|
bits;003 table 5, raw #: |0|1|2|3|4|
kind;003 6.4.2.10, current gear, raw #: |0;0;-125;1|125;0;0;1|250;0;125;1|251;0;0;1|252;0;0;1|253;0;0;1|254;0;0;1|
kind;003 6.4.2.16, percent torque, raw #: |0;1;-125;1|250;1;125;1|
kind;003 6.4.2.19, percent load, raw #: |0;2;0;1|125;2;125;1|126;2;0;1|250;2;0;1|251;2;0;1|
kind;003 6.4.2.20, speed limit, raw #: |0;3;0;1|250;3;250;1|
kind;003 6.4.2.14, vehicle speed, raw #: |0;4;0;256|64255;4;64255;256|
kind;003 6.4.2.15, engine speed, raw #: |0;5;0;8|64255;5;64255;8|
kind;003 6.4.2.18, reference torque, raw #: |0;6;0;1|64255;6;64255;1|
kind;003 6.4.2.55, ambient temperature, raw #: |0;7;-8736;32|8735;7;-1;32|8736;7;0;32|64255;7;55519;32|64256;7;0;32|64511;7;0;32|\
64512;7;0;32|65023;7;0;32|65024;7;0;32|
kind;no kind 8, raw #: |0;8;0;1|
",
    );
}

// 6.3, and document 02 of frames with R set: the side that a frame comes from, its identifier, the own position, and whether there is a successor.
pub fn routes(rt: HostRuntime) {
    walk(
        rt,
        b"
route;003 6.3, from the #: # at position ##: |\
predecessor;18CEC1C9;2; with a successor|\
predecessor;18CEC1C9;2|\
predecessor;18CEB9C9;2; with a successor|\
predecessor;18CEFFEB;2; with a successor|\
predecessor;18EFB9C9;2; with a successor|\
predecessor;18F0B9C9;2; with a successor|\
predecessor;18CEC1C1;2; with a successor|\
predecessor;18CEC1B9;2; with a successor|\
predecessor;18CEC1C8;2; with a successor|\
successor;18CEC1B9;2; with a successor|\
successor;18CEEBB9;2; with a successor|\
successor;18CEC1C1;2; with a successor|\
successor;18CEC1C9;2; with a successor|\
successor;18CEC1B9;2|\
predecessor;18CEA9B1;5|\
predecessor;18CEA9B1;5; with a successor|\
predecessor;18CEC9EB;0; with a successor|\
predecessor;18CEC9EB;1; with a successor|\
predecessor;18CEC9EB;6|\
predecessor;18FE5DEB;1; with a successor|\
predecessor;20000000;2; with a successor|
route;document 02, R set, from the #: # at position ##: |\
predecessor;1ACEC1C9;2; with a successor|predecessor;1ACEC1C9;2|predecessor;1ACEB9C9;2; with a successor|\
predecessor;1ACEFFEB;2; with a successor|predecessor;1AF0B9C9;2; with a successor|predecessor;1ACEC1C1;2; with a successor|\
predecessor;1ACEC1C8;2; with a successor|successor;1ACEC1B9;2; with a successor|successor;1ACEC1B9;2|\
predecessor;1ACEA9B1;5; with a successor|predecessor;1AFE5DEB;1; with a successor|predecessor;1FFFFFFF;1; with a successor|
route;# bytes under # at position ##: |nine;1FFFFFFF;2; with a successor;123456789|nine;20000000;2; with a successor;123456789|
",
    );
}

// Tables 29 to 31. The commercial vehicle, xx in them, has the address EB; document 01 has functional frames go to FF alone.
pub fn document_000(rt: HostRuntime) {
    walk(
        rt,
        b"
channel;000 table 29, DCC#-2P |11;1CCEC9EB;1|12;1CCEC1EB;2|13;1CCEB9EB;3|14;1CCEB1EB;4|15;1CCEA9EB;5|21;1CCEEBC9;1|22;1CCEEBC1;2|\
23;1CCEEBB9;3|24;1CCEEBB1;4|25;1CCEEBA9;5|
channel;000 table 30, DCC#-2F |11;1CCDC9EB;1|12;1CCDC1EB;2|13;1CCDB9EB;3|14;1CCDB1EB;4|15;1CCDA9EB;5|21;1CCDEBC9;1|22;1CCDEBC1;2|\
23;1CCDEBB9;3|24;1CCDEBB1;4|25;1CCDEBA9;5|
offered;document 01, #: |functional to FF;\x05\x02\x3E\x00;1CCDFFEB|
offered;000 table 31, #, data$: |\
SF;\x05\x00\x3E\x00;18CEC9EB|\
SF;\x05\x01\x3E;18CEC9EB|\
SF;\x05\x01;18CEC9EB|\
SF;\x05\x06\x22\xF1\x90\xF1\x87\xF1;18CEC9EB|\
SF;\x05\x06\x22\xF1\x90\xF1\x87;18CEC9EB|\
SF;\x05\x07\x22\xF1\x90\xF1\x87\xF1;18CEC9EB|\
functional SF;\x05\x02\x3E\x00;18CDFFEB|\
FF;\x05\x10\x06\x22\xF1\x90\xF1\x87;18CEC9EB|\
FF;\x05\x10\x07\x22\xF1\x90\xF1\x87;18CEC9EB|\
FF;\x05\x10\x07\x22\xF1\x90\xF1;18CEC9EB|\
FF;\x05\x10\xFF\x22\xF1\x90\xF1\x87;18CEC9EB|\
FF;\x05\x11\x00\x22\xF1\x90\xF1\x87;18CEC9EB|\
FF;\x05\x1F\xFF\x22\xF1\x90\xF1\x87;18CEC9EB|\
functional FF;\x05\x10\x07\x22\xF1\x90\xF1\x87;18CDFFEB|\
CF;\x05\x21\xF1\x8C;18CEC9EB|\
functional CF;\x05\x21\xF1\x8C;18CDFFEB|\
FC;\x05\x30\x00\x00;18CEC9EB|\
functional FC;\x05\x30\x00\x00;18CDFFEB|\
RBD;\x05\x40;18CEC9EB|\
RBD;\x05\xFF;18CEC9EB|
",
    );
}

// 10.4.2.2.4 and N_Cr: messages cut and read back; the second and the third frame of a message; and frames between two, of the same vehicle,
// which end the reception or are passed over, and of others.
pub fn trains(rt: HostRuntime) {
    walk(
        rt,
        b"
message;000 10.4.2.2.4, a message of # bytes:|0|1|6|7|11|12|101|255|256|
sequence;|gap 0/F;18CEC9EB;7;, first frame: /\x05\x21\xF1\x8C\xF1\x95\xF1\x97;18CEC9EB;7;, data$: |\
000 N_Cr, gap 150/F;18CEC9EB;FFFFFFF0;, first frame: /\x05\x21\xF1\x8C\xF1\x95\xF1\x97;18CEC9EB;86;, data$: |\
000 N_Cr, gap 151/F;18CEC9EB;FFFFFFF0;, first frame: /\x05\x21\xF1\x8C\xF1\x95\xF1\x97;18CEC9EB;87;, data$: |\
stamp goes back/F;18CEC9EB;1;, first frame: /\x05\x21\xF1\x8C\xF1\x95\xF1\x97;18CEC9EB;0;, data$: |\
number 2/F;18CEC9EB;0;, first frame: /\x05\x22\xF1\x8C\xF1\x95\xF1\x97;18CEC9EB;0;, data$: |\
number 0/F;18CEC9EB;0;, first frame: /\x05\x20\xF1\x8C\xF1\x95\xF1\x97;18CEC9EB;0;, data$: |\
seven bytes/F;18CEC9EB;0;, first frame: /\x05\x21\xF1\x8C\xF1\x95\xF1;18CEC9EB;0;, data$: |\
number 2 and seven bytes/F;18CEC9EB;0;, first frame: /\x05\x22\xF1\x8C\xF1\x95\xF1;18CEC9EB;0;, data$: |\
two bytes/\x05\x10\x0C\x22\xF1\x90\xF1\x87;18CEC9EB;0;, first frame: /S;18CEC9EB;0;, second frame: /\x05\x22;18CEC9EB;0;, data$: |\
three bytes/\x05\x10\x0C\x22\xF1\x90\xF1\x87;18CEC9EB;0;, first frame: /S;18CEC9EB;0;, second frame: /\x05\x22\xAA;18CEC9EB;0;, data$: |\
functional single/F;18CEC9EB;0;, before it: /\x05\x02\x3E\x00;18CDFFEB;64;: /S;18CEC9EB;96;, after it: |\
physical single/F;18CEC9EB;0;, before it: /\x05\x02\x3E\x00;18CEC9EB;64;: /S;18CEC9EB;96;, after it: |\
over-long first/F;18CEC9EB;0;, before it: /\x05\x11\x00\x22\xF1\x90\xF1\x87;18CEC9EB;64;: /S;18CEC9EB;96;, after it: |\
flow control/F;18CEC9EB;0;, before it: /\x05\x30\x00\x00;18CEC9EB;64;: /S;18CEC9EB;96;, after it: |\
malformed/F;18CEC9EB;0;, before it: /\x05\x40;18CEC9EB;64;: /S;18CEC9EB;96;, after it: |\
other unit/F;18CEC9EB;0;, before it: /\x06\x02\x3E\x00;18CEC9EB;64;: /S;18CEC9EB;96;, after it: |\
another vehicle's first/F;18CEC9EB;0;, before it: /\x05\x10\x07\x22\xF1\x90\xF1\x87;18CEC9C1;64;: /S;18CEC9EB;96;, after it: |\
another vehicle's consecutive/F;18CEC9EB;0;, before it: /\x05\x21\xF1\x8C\xF1\x95\xF1\x97;18CEC9C1;64;: /S;18CEC9EB;96;, after it: |
",
    );
}

// The identifier's fields; checks 2 to 9 of a frame, each where the one before just passes; nodes; cuts and flow control.
pub fn limits(rt: HostRuntime) {
    walk(
        rt,
        b"
written;identifier #: |written;7;0;1;255;255;FF|written;8;0;1;255;255;FF|written;7;0;2;255;255;FF|written;0;0;0;255;255;FF|\
written;7;1;1;255;255;FF|written;7;2;1;255;255;FF|written;6;1;0;254;93;EB|
identifier;identifier #: |read;00000000|read;1DFFFFFF|read;02000000|read;1FFFFFFF|read;1AFE5DEB|read;20000000|read;FFFFFFFF|
offered;#, data$: |identifier past 29 bits;\x05\x02\x3E\x00;20000000|nine bytes;\x05\x02\x3E\x00\x00\x00\x00\x00\x00;18CEC9EB|\
eight bytes;\x05\x02\x3E\x00\x00\x00\x00\x00;18CEC9EB|R set;\x05\x02\x3E\x00;1ACEC9EB|\
1FFFFFFF;\x05\x02\x3E\x00;1FFFFFFF|1AFE5DEB;\x05\x02\x3E\x00;1AFE5DEB|DP 1;\x05\x02\x3E\x00;19CEC9EB|\
PF 204;\x05\x02\x3E\x00;18CCC9EB|PF 207;\x05\x02\x3E\x00;18CFC9EB|SA no vehicle;\x05\x02\x3E\x00;18CEC9C8|SA own;\x05\x02\x3E\x00;18CEC9C9|\
SA position 5;\x05\x02\x3E\x00;18CEC9A9|physical to FF;\x05\x02\x3E\x00;18CEFFEB|physical to position 2;\x05\x02\x3E\x00;18CEC1EB|\
functional to the own address;\x05\x02\x3E\x00;18CDC9EB|no unit;;18CEC9EB|unit 4;\x04\x02\x3E\x00;18CEC9EB|\
unit 6;\x06\x02\x3E\x00;18CEC9EB|no second byte;\x05;18CEC9EB|priority 0;\x05\x02\x3E\x00;00CEC9EB|
node;fresh at position #: |0|1|5|6|
under way;reception of length #, taken #, last #: |0;0;0|0;0;1|0;1;0|6;0;0|7;0;0|11;1;0|12;1;0|255;41;0|255;42;0|
given;buffer of # bytes: |1535|1536|1537|
hears;position # hears #: |2;C9|2;EB|2;A9|6;A9|
piece;frame # of # bytes from # to #: |0;0;1;0|0;1;1;0|1;1;1;0|0;6;1;0|0;7;1;0|1;7;1;0|2;7;1;0|0;255;1;0|15;255;1;0|16;255;1;0|42;255;1;0|\
43;255;1;0|0;256;1;0|0;1;0;5|0;1;5;0|0;1;0;6|0;1;6;0|0;1;1;1|
due;# from # to #: |continue;1;0|overflow;1;0|continue;5;4|continue;6;0|continue;0;6|continue;1;1|
",
    );
}
