//! Each instruction and its word, both ways.

use rv_encode::{decode, encode};
use rv_form::Instr;

/// Each instruction, and its word as `tools/instruction_words.py` has it from the GNU assembler.
const WORDS: [(Instr, u32); 65] = [
    (
        Instr::Lui {
            rd: 10,
            imm: -524288,
        },
        0x8000_0537,
    ), // lui x10, 0x80000
    (Instr::Auipc { rd: 18, imm: 74565 }, 0x1234_5917), // auipc x18, 0x12345
    (
        Instr::Jal {
            rd: 1,
            imm: -699052,
        },
        0xd545_50ef,
    ), // jal x1, .-699052
    (
        Instr::Jalr {
            rd: 1,
            rs1: 2,
            imm: 16,
        },
        0x0101_00e7,
    ), // jalr x1, 16(x2)
    (
        Instr::Beq {
            rs1: 19,
            rs2: 20,
            imm: 2048,
        },
        0x0149_80e3,
    ), // beq x19, x20, .+2048
    (
        Instr::Bne {
            rs1: 9,
            rs2: 15,
            imm: -2048,
        },
        0x80f4_90e3,
    ), // bne x9, x15, .-2048
    (
        Instr::Blt {
            rs1: 11,
            rs2: 12,
            imm: -4096,
        },
        0x80c5_c063,
    ), // blt x11, x12, .-4096
    (
        Instr::Bge {
            rs1: 6,
            rs2: 7,
            imm: 4094,
        },
        0x7e73_5fe3,
    ), // bge x6, x7, .+4094
    (
        Instr::Bltu {
            rs1: 30,
            rs2: 29,
            imm: -2,
        },
        0xffdf_6fe3,
    ), // bltu x30, x29, .-2
    (
        Instr::Bgeu {
            rs1: 2,
            rs2: 3,
            imm: 8,
        },
        0x0031_7463,
    ), // bgeu x2, x3, .+8
    (
        Instr::Lb {
            rd: 18,
            rs1: 19,
            imm: 5,
        },
        0x0059_8903,
    ), // lb x18, 5(x19)
    (
        Instr::Lh {
            rd: 8,
            rs1: 9,
            imm: -3,
        },
        0xffd4_9403,
    ), // lh x8, -3(x9)
    (
        Instr::Lw {
            rd: 10,
            rs1: 11,
            imm: -2048,
        },
        0x8005_a503,
    ), // lw x10, -2048(x11)
    (
        Instr::Ld {
            rd: 5,
            rs1: 6,
            imm: 2047,
        },
        0x7ff3_3283,
    ), // ld x5, 2047(x6)
    (
        Instr::Lbu {
            rd: 31,
            rs1: 30,
            imm: -1,
        },
        0xffff_4f83,
    ), // lbu x31, -1(x30)
    (
        Instr::Lhu {
            rd: 1,
            rs1: 2,
            imm: 16,
        },
        0x0101_5083,
    ), // lhu x1, 16(x2)
    (
        Instr::Lwu {
            rd: 18,
            rs1: 19,
            imm: 5,
        },
        0x0059_e903,
    ), // lwu x18, 5(x19)
    (
        Instr::Sb {
            rs1: 9,
            rs2: 15,
            imm: -3,
        },
        0xfef4_8ea3,
    ), // sb x15, -3(x9)
    (
        Instr::Sh {
            rs1: 11,
            rs2: 12,
            imm: -2048,
        },
        0x80c5_9023,
    ), // sh x12, -2048(x11)
    (
        Instr::Sw {
            rs1: 6,
            rs2: 7,
            imm: 2047,
        },
        0x7e73_2fa3,
    ), // sw x7, 2047(x6)
    (
        Instr::Sd {
            rs1: 30,
            rs2: 29,
            imm: -1,
        },
        0xffdf_3fa3,
    ), // sd x29, -1(x30)
    (
        Instr::Addi {
            rd: 1,
            rs1: 2,
            imm: 16,
        },
        0x0101_0093,
    ), // addi x1, x2, 16
    (
        Instr::Slti {
            rd: 18,
            rs1: 19,
            imm: 5,
        },
        0x0059_a913,
    ), // slti x18, x19, 5
    (
        Instr::Sltiu {
            rd: 8,
            rs1: 9,
            imm: -3,
        },
        0xffd4_b413,
    ), // sltiu x8, x9, -3
    (
        Instr::Xori {
            rd: 10,
            rs1: 11,
            imm: -2048,
        },
        0x8005_c513,
    ), // xori x10, x11, -2048
    (
        Instr::Ori {
            rd: 5,
            rs1: 6,
            imm: 2047,
        },
        0x7ff3_6293,
    ), // ori x5, x6, 2047
    (
        Instr::Andi {
            rd: 31,
            rs1: 30,
            imm: -1,
        },
        0xffff_7f93,
    ), // andi x31, x30, -1
    (
        Instr::Slli {
            rd: 1,
            rs1: 2,
            imm: 63,
        },
        0x03f1_1093,
    ), // slli x1, x2, 63
    (
        Instr::Srli {
            rd: 18,
            rs1: 19,
            imm: 1,
        },
        0x0019_d913,
    ), // srli x18, x19, 1
    (
        Instr::Srai {
            rd: 8,
            rs1: 9,
            imm: 32,
        },
        0x4204_d413,
    ), // srai x8, x9, 32
    (
        Instr::Add {
            rd: 10,
            rs1: 11,
            rs2: 12,
        },
        0x00c5_8533,
    ), // add x10, x11, x12
    (
        Instr::Sub {
            rd: 5,
            rs1: 6,
            rs2: 7,
        },
        0x4073_02b3,
    ), // sub x5, x6, x7
    (
        Instr::Sll {
            rd: 31,
            rs1: 30,
            rs2: 29,
        },
        0x01df_1fb3,
    ), // sll x31, x30, x29
    (
        Instr::Slt {
            rd: 1,
            rs1: 2,
            rs2: 3,
        },
        0x0031_20b3,
    ), // slt x1, x2, x3
    (
        Instr::Sltu {
            rd: 18,
            rs1: 19,
            rs2: 20,
        },
        0x0149_b933,
    ), // sltu x18, x19, x20
    (
        Instr::Xor {
            rd: 8,
            rs1: 9,
            rs2: 15,
        },
        0x00f4_c433,
    ), // xor x8, x9, x15
    (
        Instr::Srl {
            rd: 10,
            rs1: 11,
            rs2: 12,
        },
        0x00c5_d533,
    ), // srl x10, x11, x12
    (
        Instr::Sra {
            rd: 5,
            rs1: 6,
            rs2: 7,
        },
        0x4073_52b3,
    ), // sra x5, x6, x7
    (
        Instr::Or {
            rd: 31,
            rs1: 30,
            rs2: 29,
        },
        0x01df_6fb3,
    ), // or x31, x30, x29
    (
        Instr::And {
            rd: 1,
            rs1: 2,
            rs2: 3,
        },
        0x0031_70b3,
    ), // and x1, x2, x3
    (
        Instr::Mul {
            rd: 18,
            rs1: 19,
            rs2: 20,
        },
        0x0349_8933,
    ), // mul x18, x19, x20
    (
        Instr::Mulh {
            rd: 8,
            rs1: 9,
            rs2: 15,
        },
        0x02f4_9433,
    ), // mulh x8, x9, x15
    (
        Instr::Mulhsu {
            rd: 10,
            rs1: 11,
            rs2: 12,
        },
        0x02c5_a533,
    ), // mulhsu x10, x11, x12
    (
        Instr::Mulhu {
            rd: 5,
            rs1: 6,
            rs2: 7,
        },
        0x0273_32b3,
    ), // mulhu x5, x6, x7
    (
        Instr::Div {
            rd: 31,
            rs1: 30,
            rs2: 29,
        },
        0x03df_4fb3,
    ), // div x31, x30, x29
    (
        Instr::Divu {
            rd: 1,
            rs1: 2,
            rs2: 3,
        },
        0x0231_50b3,
    ), // divu x1, x2, x3
    (
        Instr::Rem {
            rd: 18,
            rs1: 19,
            rs2: 20,
        },
        0x0349_e933,
    ), // rem x18, x19, x20
    (
        Instr::Remu {
            rd: 8,
            rs1: 9,
            rs2: 15,
        },
        0x02f4_f433,
    ), // remu x8, x9, x15
    (
        Instr::Addiw {
            rd: 10,
            rs1: 11,
            imm: -2048,
        },
        0x8005_851b,
    ), // addiw x10, x11, -2048
    (
        Instr::Slliw {
            rd: 5,
            rs1: 6,
            imm: 1,
        },
        0x0013_129b,
    ), // slliw x5, x6, 1
    (
        Instr::Srliw {
            rd: 31,
            rs1: 30,
            imm: 16,
        },
        0x010f_5f9b,
    ), // srliw x31, x30, 16
    (
        Instr::Sraiw {
            rd: 1,
            rs1: 2,
            imm: 31,
        },
        0x41f1_509b,
    ), // sraiw x1, x2, 31
    (
        Instr::Addw {
            rd: 18,
            rs1: 19,
            rs2: 20,
        },
        0x0149_893b,
    ), // addw x18, x19, x20
    (
        Instr::Subw {
            rd: 8,
            rs1: 9,
            rs2: 15,
        },
        0x40f4_843b,
    ), // subw x8, x9, x15
    (
        Instr::Sllw {
            rd: 10,
            rs1: 11,
            rs2: 12,
        },
        0x00c5_953b,
    ), // sllw x10, x11, x12
    (
        Instr::Srlw {
            rd: 5,
            rs1: 6,
            rs2: 7,
        },
        0x0073_52bb,
    ), // srlw x5, x6, x7
    (
        Instr::Sraw {
            rd: 31,
            rs1: 30,
            rs2: 29,
        },
        0x41df_5fbb,
    ), // sraw x31, x30, x29
    (
        Instr::Mulw {
            rd: 1,
            rs1: 2,
            rs2: 3,
        },
        0x0231_00bb,
    ), // mulw x1, x2, x3
    (
        Instr::Divw {
            rd: 18,
            rs1: 19,
            rs2: 20,
        },
        0x0349_c93b,
    ), // divw x18, x19, x20
    (
        Instr::Divuw {
            rd: 8,
            rs1: 9,
            rs2: 15,
        },
        0x02f4_d43b,
    ), // divuw x8, x9, x15
    (
        Instr::Remw {
            rd: 10,
            rs1: 11,
            rs2: 12,
        },
        0x02c5_e53b,
    ), // remw x10, x11, x12
    (
        Instr::Remuw {
            rd: 5,
            rs1: 6,
            rs2: 7,
        },
        0x0273_72bb,
    ), // remuw x5, x6, x7
    (
        Instr::Fence {
            rd: 3,
            rs1: 4,
            imm: -1,
        },
        0xfff2_018f,
    ), // .insn i 0x0f, 0, x3, x4, -1
    (Instr::Ecall, 0x0000_0073), // ecall
    (Instr::Ebreak, 0x0010_0073), // ebreak
];

/// Words of 32 bits that no row of the table has.
const NO_WORDS: [u32; 10] = [
    0x0000_0000, // no opcode
    0xffff_ffff,
    0x0000_1067, // jalr with another funct3
    0x0000_2063, // a branch that is none
    0x0000_7003, // a load of 16 bytes
    0x8000_1013, // slli with bit 31 set
    0x0200_101b, // slliw by 32
    0x4000_7033, // and with funct7 of sub
    0x0000_100f, // fence.i
    0x0020_0073, // uret
];

#[test]
fn words_are_the_assemblers(rt: HostRuntime) {
    for (instr, word) in WORDS {
        assert!(rt; instr.is_valid(), "{word}");
        assert_eq!(rt; encode(instr), word);
        assert_eq!(rt; decode(word), Some(instr), "{word}");
    }
}

#[test]
fn other_words_are_none(rt: HostRuntime) {
    for word in NO_WORDS {
        assert!(rt; decode(word).is_none(), "{word}");
    }
}
