//! The microprogram that interprets IJVM on Mic-1, in the microassembly language.

/// Its text, as it is printed canonically.
pub const MIC1: &str = "\
.label nop1 0x000
.label iadd1 0x060
.label isub1 0x064
.label iand1 0x07e
.label ior1 0x0b0
.label ior80 0x080
.label dup1 0x059
.label pop1 0x057
.label swap1 0x05f
.label bipush1 0x010
.label iload1 0x015
.label istore1 0x036
.label wide1 0x0c4
.label wide_iload1 0x115
.label wide_istore1 0x136
.label ldc_w1 0x013
.label iinc1 0x084
.label goto1 0x0a7
.label iflt1 0x09b
.label ifeq1 0x099
.label if_icmpeq1 0x09f
.label invokevirtual1 0x0b6
.label ireturn1 0x0ac
.label in1 0x0fc
.label out1 0x0fd
.label halt1 0x0ff
.label err1 0x0fe
.label wide_iinc1 0x184
.default goto err1
Main1 PC=PC+1; fetch; goto (MBR)
nop1 goto Main1
iadd1 SP=MAR=SP-1; rd
iadd2 H=TOS
iadd3 TOS=MDR=H+MDR; wr; goto Main1
isub1 SP=MAR=SP-1; rd
isub2 H=TOS
isub3 TOS=MDR=MDR-H; wr; goto Main1
iand1 SP=MAR=SP-1; rd
iand2 H=TOS
iand3 TOS=MDR=H AND MDR; wr; goto Main1
ior1 SP=MAR=SP-1; rd
ior2 H=TOS
ior3 TOS=MDR=H OR MDR; wr; goto Main1
ior80 SP=MAR=SP-1; rd; goto ior2
dup1 SP=MAR=SP+1
dup2 MDR=TOS; wr; goto Main1
pop1 SP=MAR=SP-1; rd
pop2
pop3 TOS=MDR; goto Main1
swap1 MAR=SP-1; rd
swap2 MAR=SP
swap3 H=MDR; wr
swap4 MDR=TOS
swap5 MAR=SP-1; wr
swap6 TOS=H; goto Main1
bipush1 SP=MAR=SP+1
bipush2 PC=PC+1; fetch
bipush3 TOS=MDR=MBR; wr; goto Main1
iload1 H=LV
iload2 MAR=H+MBRU; rd
iload3 SP=MAR=SP+1
iload4 PC=PC+1; wr; fetch
iload5 TOS=MDR; goto Main1
istore1 H=LV
istore2 MAR=H+MBRU
istore3 MDR=TOS; wr
istore4 SP=MAR=SP-1; rd
istore5 PC=PC+1; fetch
istore6 TOS=MDR; goto Main1
wide1 PC=PC+1; fetch; goto (MBR OR 0x100)
wide_iload1 PC=PC+1; fetch
wide_iload2 H=MBRU<<8
wide_iload3 H=H OR MBRU
wide_iload4 MAR=H+LV; rd; goto iload3
wide_istore1 PC=PC+1; fetch
wide_istore2 H=MBRU<<8
wide_istore3 H=H OR MBRU
wide_istore4 MAR=H+LV; goto istore3
ldc_w1 PC=PC+1; fetch
ldc_w2 H=MBRU<<8
ldc_w3 H=H OR MBRU
ldc_w4 MAR=H+CPP; rd; goto iload3
iinc1 H=LV
iinc2 MAR=H+MBRU; rd
iinc3 PC=PC+1; fetch
iinc4 H=MDR
iinc5 PC=PC+1; fetch
iinc6 MDR=H+MBR; wr; goto Main1
goto1 OPC=PC-1
goto2 PC=PC+1; fetch
goto3 H=MBR<<8
goto4 H=H OR MBRU
goto5 PC=H+OPC; fetch
goto6 goto Main1
iflt1 SP=MAR=SP-1; rd
iflt2 OPC=TOS
iflt3 TOS=MDR
iflt4 N=OPC; if (N) goto T; else goto F
ifeq1 SP=MAR=SP-1; rd
ifeq2 OPC=TOS
ifeq3 TOS=MDR
ifeq4 Z=OPC; if (Z) goto T; else goto F
if_icmpeq1 SP=MAR=SP-1; rd
if_icmpeq2 SP=MAR=SP-1
if_icmpeq3 H=MDR; rd
if_icmpeq4 OPC=TOS
if_icmpeq5 TOS=MDR
if_icmpeq6 Z=OPC-H; if (Z) goto T; else goto F
T OPC=PC-1; goto goto2
F PC=PC+1
F2 PC=PC+1; fetch
F3 goto Main1
invokevirtual1 PC=PC+1; fetch
invokevirtual2 H=MBRU<<8
invokevirtual3 H=H OR MBRU
invokevirtual4 MAR=H+CPP; rd
invokevirtual5 OPC=PC+1
invokevirtual6 PC=MDR; fetch
invokevirtual7 PC=PC+1; fetch
invokevirtual8 H=MBRU<<8
invokevirtual9 H=H OR MBRU
invokevirtual10 PC=PC+1; fetch
invokevirtual11 TOS=SP-H
invokevirtual12 TOS=MAR=TOS+1
invokevirtual13 PC=PC+1; fetch
invokevirtual14 H=MBRU<<8
invokevirtual15 H=H OR MBRU
invokevirtual16 MDR=H+SP+1; wr
invokevirtual17 SP=MAR=MDR
invokevirtual18 MDR=OPC; wr
invokevirtual19 SP=MAR=SP+1
invokevirtual20 MDR=LV; wr
invokevirtual21 PC=PC+1; fetch
invokevirtual22 LV=TOS; goto Main1
ireturn1 SP=MAR=LV; rd
ireturn2
ireturn3 LV=MAR=MDR; rd
ireturn4 MAR=LV+1
ireturn5 PC=MDR; rd; fetch
ireturn6 MAR=SP
ireturn7 LV=MDR
ireturn8 MDR=TOS; wr; goto Main1
in1 H=OPC=-1
in2 OPC=H+OPC
in3 MAR=H+OPC; rd
in4 SP=MAR=SP+1
in5 TOS=MDR; wr; goto Main1
out1 H=OPC=-1
out2 OPC=H+OPC
out3 MAR=H+OPC
out4 MDR=TOS; wr
out5 SP=MAR=SP-1; rd
out6
out7 TOS=MDR; goto Main1
halt1 goto halt1
err1 goto err1
wide_iinc1 PC=PC+1; fetch
wide_iinc2 H=MBRU<<8
wide_iinc3 H=H OR MBRU
wide_iinc4 MAR=H+LV; rd
wide_iinc5 PC=PC+1; fetch
wide_iinc6 PC=PC+1; fetch
wide_iinc7 H=MBR<<8
wide_iinc8 H=H OR MBRU
wide_iinc9 PC=PC+1; fetch
wide_iinc10 MDR=H+MDR; wr; goto Main1
";
