//! The microprogram that interprets IJVM on Mic-2, in the microassembly language.

/// Its text, as it is printed canonically.
pub const MIC2: &str = "\
.label nop1 0x000
.label iadd1 0x060
.label isub1 0x064
.label iand1 0x07e
.label ior1 0x0b0
.label ior80 0x080
.label dup1 0x059
.label pop1 0x057
.label swap1 0x05f
.label bipush1 0x010
.label iload1 0x015
.label istore1 0x036
.label wide1 0x0c4
.label wide_iload1 0x115
.label wide_istore1 0x136
.label ldc_w1 0x013
.label iinc1 0x084
.label goto1 0x0a7
.label iflt1 0x09b
.label ifeq1 0x099
.label if_icmpeq1 0x09f
.label invokevirtual1 0x0b6
.label ireturn1 0x0ac
.label in1 0x0fc
.label out1 0x0fd
.label halt1 0x0ff
.label err1 0x0fe
.label wide_iinc1 0x184
.default goto err1
Main1 goto (MBR1)
nop1 goto (MBR1)
iadd1 SP=MAR=SP-1; rd
iadd2 H=TOS
iadd3 TOS=MDR=MDR+H; wr; goto (MBR1)
isub1 SP=MAR=SP-1; rd
isub2 H=TOS
isub3 TOS=MDR=MDR-H; wr; goto (MBR1)
iand1 SP=MAR=SP-1; rd
iand2 H=TOS
iand3 TOS=MDR=MDR AND H; wr; goto (MBR1)
ior1 SP=MAR=SP-1; rd
ior2 H=TOS
ior3 TOS=MDR=MDR OR H; wr; goto (MBR1)
ior80 SP=MAR=SP-1; rd; goto ior2
dup1 SP=MAR=SP+1
dup2 MDR=TOS; wr; goto (MBR1)
pop1 SP=MAR=SP-1; rd
pop2
pop3 TOS=MDR; goto (MBR1)
swap1 MAR=SP-1; rd
swap2 MAR=SP
swap3 H=MDR; wr
swap4 MDR=TOS
swap5 MAR=SP-1; wr
swap6 TOS=H; goto (MBR1)
bipush1 TOS=MDR=MBR1
bipush2 SP=MAR=SP+1; wr; goto (MBR1)
iload1 MAR=LV+MBR1U; rd
iload2 SP=MAR=SP+1
iload3 TOS=MDR; wr; goto (MBR1)
istore1 MAR=LV+MBR1U
istore2 MDR=TOS; wr
istore3 SP=MAR=SP-1; rd
istore4
istore5 TOS=MDR; goto (MBR1)
wide1 goto (MBR1 OR 0x100)
wide_iload1 MAR=LV+MBR2U; rd; goto iload2
wide_istore1 MAR=LV+MBR2U; goto istore2
ldc_w1 MAR=CPP+MBR2U; rd; goto iload2
iinc1 MAR=LV+MBR1U; rd
iinc2 H=MBR1
iinc3 MDR=MDR+H; wr; goto (MBR1)
goto1 H=PC-1
goto2 PC=H+MBR2
goto3
goto4 goto (MBR1)
iflt1 SP=MAR=SP-1; rd
iflt2 OPC=TOS
iflt3 TOS=MDR
iflt4 N=OPC; if (N) goto T; else goto F
ifeq1 SP=MAR=SP-1; rd
ifeq2 OPC=TOS
ifeq3 TOS=MDR
ifeq4 Z=OPC; if (Z) goto T; else goto F
if_icmpeq1 SP=MAR=SP-1; rd
if_icmpeq2 SP=MAR=SP-1
if_icmpeq3 H=MDR; rd
if_icmpeq4 OPC=TOS
if_icmpeq5 TOS=MDR
if_icmpeq6 Z=OPC-H; if (Z) goto T; else goto F
T H=PC-1; goto goto2
F H=MBR2
F2 goto (MBR1)
invokevirtual1 MAR=CPP+MBR2U; rd
invokevirtual2 OPC=PC
invokevirtual3 PC=MDR
invokevirtual4 TOS=SP-MBR2U
invokevirtual5 H=TOS=MAR=TOS+1
invokevirtual6 MDR=SP+MBR2U+1; wr
invokevirtual7 SP=MAR=MDR
invokevirtual8 MDR=OPC; wr
invokevirtual9 SP=MAR=SP+1
invokevirtual10 MDR=LV; wr
invokevirtual11 LV=TOS; goto (MBR1)
ireturn1 SP=MAR=LV; rd
ireturn2
ireturn3 LV=MAR=MDR; rd
ireturn4 MAR=LV+1
ireturn5 PC=MDR; rd
ireturn6 MAR=SP
ireturn7 LV=MDR
ireturn8 MDR=TOS; wr; goto (MBR1)
in1 H=OPC=-1
in2 OPC=H+OPC
in3 MAR=H+OPC; rd
in4 SP=MAR=SP+1
in5 TOS=MDR; wr; goto (MBR1)
out1 H=OPC=-1
out2 OPC=H+OPC
out3 MAR=H+OPC
out4 MDR=TOS; wr
out5 SP=MAR=SP-1; rd
out6
out7 TOS=MDR; goto (MBR1)
halt1 goto halt1
err1 goto err1
wide_iinc1 MAR=LV+MBR2U; rd
wide_iinc2
wide_iinc3 H=MBR2
wide_iinc4 MDR=MDR+H; wr; goto (MBR1)
";
