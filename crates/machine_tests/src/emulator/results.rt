//! What each instruction computes of operands at the edges, as `tools/instruction_results.py` has it of
//! qemu-riscv64: a program, the place in it of the instruction, and the number that it writes with each.

pub const SLOT: usize = 48;

pub const HARNESS: [u8; 152] = [
    0xb7, 0x02, 0x02, 0x00, 0x13, 0x83, 0x02, 0x04, 0x13, 0x87, 0x82, 0x04, 0x13, 0x08, 0x00, 0x00,
    0x93, 0x86, 0x02, 0x00, 0x03, 0xb5, 0x06, 0x00, 0x13, 0x84, 0x02, 0x00, 0x83, 0x35, 0x04, 0x00,
    0x13, 0x06, 0x00, 0x00, 0x23, 0x30, 0x07, 0x00, 0x23, 0x34, 0x07, 0x00, 0x97, 0x07, 0x00, 0x00,
    0x13, 0x00, 0x00, 0x00, 0x13, 0x06, 0x76, 0x00, 0x93, 0x13, 0x58, 0x00, 0x33, 0x88, 0x03, 0x41,
    0x33, 0x08, 0xc8, 0x00, 0x83, 0x33, 0x07, 0x00, 0x33, 0x08, 0x78, 0x00, 0x83, 0x33, 0x87, 0x00,
    0x33, 0x48, 0x78, 0x00, 0x13, 0x04, 0x84, 0x00, 0xe3, 0x12, 0x64, 0xfc, 0x93, 0x86, 0x86, 0x00,
    0xe3, 0x9a, 0x66, 0xfa, 0x23, 0x30, 0x07, 0x01, 0x13, 0x09, 0x00, 0x00, 0x13, 0x05, 0x10, 0x00,
    0xb3, 0x05, 0x27, 0x01, 0x13, 0x06, 0x10, 0x00, 0x93, 0x08, 0x00, 0x04, 0x73, 0x00, 0x00, 0x00,
    0x13, 0x09, 0x19, 0x00, 0x93, 0x03, 0x80, 0x00, 0xe3, 0x12, 0x79, 0xfe, 0x13, 0x05, 0x00, 0x00,
    0x93, 0x08, 0xd0, 0x05, 0x73, 0x00, 0x00, 0x00,
];

pub const RESULTS: [(u32, u64); 135] = [
    (0x80000637, 0x7df01851899b9c00), // lui x12, 0x80000
    (0x7ffff637, 0xd0ca2b17015b9c00), // lui x12, 0x7ffff
    (0x0080066f, 0x4699b298823ad000), // jal x12, .+8
    (0x00c78667, 0x4699b298823ad000), // jalr x12, 12(x15)
    (0x00d78667, 0x4699b298823ad000), // jalr x12, 13(x15)
    (0x40578633, 0x2baf7e6066924c00), // sub x12, x15, x5
    (0x00000617, 0x49edd94dbd345c00), // auipc x12, 0
    (0xfffff617, 0x891f681334f45c00), // auipc x12, 0xfffff
    (0x00b50463, 0x43c6b73474688c80), // beq x10, x11, .+8
    (0x00b51463, 0xc3fda31d15330f80), // bne x10, x11, .+8
    (0x00b54463, 0x02a9175282628aca), // blt x10, x11, .+8
    (0x00b55463, 0x051b42ff07391136), // bge x10, x11, .+8
    (0x00b56463, 0x6628fca271cd2212), // bltu x10, x11, .+8
    (0x00b57463, 0xa19b5daf17ce79ee), // bgeu x10, x11, .+8
    (0x00068603, 0x55746bd2d64f7b00), // lb x12, 0(x13)
    (0x00368603, 0xe2dea56ae8af6a80), // lb x12, 3(x13)
    (0x00768603, 0x5c7debc1407f2a80), // lb x12, 7(x13)
    (0x00069603, 0x55746bd2d64f7b00), // lh x12, 0(x13)
    (0x00369603, 0xcdbef40ec27fea80), // lh x12, 3(x13)
    (0x00769603, 0x73d03150e94faa80), // lh x12, 7(x13)
    (0x0006a603, 0xccbb4392d64f7b00), // lw x12, 0(x13)
    (0x0036a603, 0xcdbef40ec27fea80), // lw x12, 3(x13)
    (0x0076a603, 0x73d03150e94faa80), // lw x12, 7(x13)
    (0x0006b603, 0x70951412d64f7b00), // ld x12, 0(x13)
    (0x0036b603, 0x82cf740ec27fea80), // ld x12, 3(x13)
    (0x0076b603, 0x88387150e94faa80), // ld x12, 7(x13)
    (0x0006c603, 0x0a95c9ba9a40fb00), // lbu x12, 0(x13)
    (0x0036c603, 0xb8612a641ef16a80), // lbu x12, 3(x13)
    (0x0076c603, 0x5dd7baca8470aa80), // lbu x12, 7(x13)
    (0x0006d603, 0x76d25396c7cf7b00), // lhu x12, 0(x13)
    (0x0036d603, 0x6ff5496b33ffea80), // lhu x12, 3(x13)
    (0x0076d603, 0xed5634cb5acfaa80), // lhu x12, 7(x13)
    (0x0006e603, 0xc5f18592d64f7b00), // lwu x12, 0(x13)
    (0x0036e603, 0x231b658ec27fea80), // lwu x12, 3(x13)
    (0x0076e603, 0x774aa2d0e94faa80), // lwu x12, 7(x13)
    (0x00b70023, 0xa3305f57bc6d0520), // sb x11, 0(x14)
    (0x00b702a3, 0xd92d7a51899b9c00), // sb x11, 5(x14)
    (0x00b71023, 0xf0ad314152d81d20), // sh x11, 0(x14)
    (0x00b712a3, 0x44457a51899b9c00), // sh x11, 5(x14)
    (0x00b72023, 0xeaf835ced5f01d20), // sw x11, 0(x14)
    (0x00b722a3, 0xf361c2a664882000), // sw x11, 5(x14)
    (0x00b73023, 0xd32df1d6d5f01d20), // sd x11, 0(x14)
    (0x00b732a3, 0xbb83e7a5be4a2800), // sd x11, 5(x14)
    (0x00050613, 0x70951412d64f7b00), // addi x12, x10, 0
    (0x00150613, 0x71b120f9e9f7ff00), // addi x12, x10, 1
    (0xfff50613, 0x6f79072bc2a6f700), // addi x12, x10, -1
    (0x7ff50613, 0x4fe03fc906c6f700), // addi x12, x10, 2047
    (0x80050613, 0x902ddb75922f7b00), // addi x12, x10, -2048
    (0x00052613, 0xfac5b42092df8d80), // slti x12, x10, 0
    (0x00152613, 0xe084261d1cbede00), // slti x12, x10, 1
    (0xfff52613, 0x121cc0b0534f3d00), // slti x12, x10, -1
    (0x7ff52613, 0xc2e958fc5136ae80), // slti x12, x10, 2047
    (0x80052613, 0x121cc0b0534f3d00), // slti x12, x10, -2048
    (0x00053613, 0x07c45a51899b9c00), // sltiu x12, x10, 0
    (0x00153613, 0xed82cc4e137aec80), // sltiu x12, x10, 1
    (0xfff53613, 0x203773c85db3cf80), // sltiu x12, x10, -1
    (0x7ff53613, 0xcfe7ff2d47f2bd00), // sltiu x12, x10, 2047
    (0x80053613, 0x203773c85db3cf80), // sltiu x12, x10, -2048
    (0x00054613, 0x70951412d64f7b00), // xori x12, x10, 0
    (0x00154613, 0x837c787fb1807b00), // xori x12, x10, 1
    (0xfff54613, 0x9dd793a9293f3900), // xori x12, x10, -1
    (0x7ff54613, 0x626a3e4a2e473900), // xori x12, x10, 2047
    (0x80054613, 0xac026971d1477b00), // xori x12, x10, -2048
    (0x00056613, 0x70951412d64f7b00), // ori x12, x10, 0
    (0x00156613, 0xfa96ccbccdbc3d00), // ori x12, x10, 1
    (0xfff56613, 0x06a84d6a75f31800), // ori x12, x10, -1
    (0x7ff56613, 0x59253f099a871800), // ori x12, x10, 2047
    (0x80056613, 0x1e182273b1bb7b00), // ori x12, x10, -2048
    (0x00057613, 0x07c45a51899b9c00), // andi x12, x10, 0
    (0x00157613, 0x7edeae8ea5d75e00), // andi x12, x10, 1
    (0xfff57613, 0x70951412d64f7b00), // andi x12, x10, -1
    (0x7ff57613, 0xfe7f5b10f5db7b00), // andi x12, x10, 2047
    (0x80057613, 0x79da13536a0f9c00), // andi x12, x10, -2048
    (0x0005061b, 0xccbb4392d64f7b00), // addiw x12, x10, 0
    (0x0015061b, 0x9ce4fff9e9f7ff00), // addiw x12, x10, 1
    (0xfff5061b, 0x0e03d7abc2a6f700), // addiw x12, x10, -1
    (0x7ff5061b, 0x7b141ec906c6f700), // addiw x12, x10, 2047
    (0x8005061b, 0x2eb8abf5922f7b00), // addiw x12, x10, -2048
    (0x00051613, 0x70951412d64f7b00), // slli x12, x10, 0
    (0x00151613, 0xd965cdd423035a00), // slli x12, x10, 1
    (0x01f51613, 0xae1e49d1899b9c00), // slli x12, x10, 31
    (0x02051613, 0x54783951899b9c00), // slli x12, x10, 32
    (0x03f51613, 0x07c45a51899b9c00), // slli x12, x10, 63
    (0x00055613, 0x70951412d64f7b00), // srli x12, x10, 0
    (0x00155613, 0x009f8d13a1d7aa80), // srli x12, x10, 1
    (0x01f55613, 0xe064fb69d818fb00), // srli x12, x10, 31
    (0x02055613, 0x9729e99b343f2a80), // srli x12, x10, 32
    (0x03f55613, 0xfac5b42092df8d80), // srli x12, x10, 63
    (0x40055613, 0x70951412d64f7b00), // srai x12, x10, 0
    (0x40155613, 0x009f8d13a1d7aa80), // srai x12, x10, 1
    (0x41f55613, 0xcddd1869d818fb00), // srai x12, x10, 31
    (0x42055613, 0x8de5f81b343f2a80), // srai x12, x10, 32
    (0x43f55613, 0x14c300828057aa80), // srai x12, x10, 63
    (0x0005161b, 0xccbb4392d64f7b00), // slliw x12, x10, 0
    (0x0015161b, 0xa3247d5423035a00), // slliw x12, x10, 1
    (0x0105161b, 0x1945a705689b9c00), // slliw x12, x10, 16
    (0x01f5161b, 0x79a67951899b9c00), // slliw x12, x10, 31
    (0x0005561b, 0xccbb4392d64f7b00), // srliw x12, x10, 0
    (0x0015561b, 0x2b4dc5d3a1d7aa80), // srliw x12, x10, 1
    (0x0105561b, 0xc500a970bb97aa80), // srliw x12, x10, 16
    (0x01f5561b, 0xc199dcd682d1de00), // srliw x12, x10, 31
    (0x4005561b, 0xccbb4392d64f7b00), // sraiw x12, x10, 0
    (0x4015561b, 0xaeb2a4d3a1d7aa80), // sraiw x12, x10, 1
    (0x4105561b, 0x427bb03a7997aa80), // sraiw x12, x10, 16
    (0x41f5561b, 0x4deed7cc90655a00), // sraiw x12, x10, 31
    (0x00b50633, 0x3bfeab9822a3fc20), // add x12, x10, x11
    (0x40b50633, 0xa52b7c8d89faf9e0), // sub x12, x10, x11
    (0x00b51633, 0xc117efd836c0cab8), // sll x12, x10, x11
    (0x00b52633, 0x087f1abf1cece79a), // slt x12, x10, x11
    (0x00b53633, 0x1eda8c45fab91b22), // sltu x12, x10, x11
    (0x00b54633, 0xa980fd1d3e35468c), // xor x12, x10, x11
    (0x00b55633, 0x99dd3e71a0868b50), // srl x12, x10, x11
    (0x40b55633, 0x871195e0702666a2), // sra x12, x10, x11
    (0x00b56633, 0x72bfd45ab06ca156), // or x12, x10, x11
    (0x00b57633, 0xd103318efbd2f6ca), // and x12, x10, x11
    (0x02b50633, 0xad27a8b7ea0cebb8), // mul x12, x10, x11
    (0x02b51633, 0x94fc6455d67a0421), // mulh x12, x10, x11
    (0x02b52633, 0x92428cfb09cf36df), // mulhsu x12, x10, x11
    (0x02b53633, 0x579de31765007d4b), // mulhu x12, x10, x11
    (0x02b54633, 0xe7bcac820cdb29a4), // div x12, x10, x11
    (0x02b55633, 0x4faa19a2535ef796), // divu x12, x10, x11
    (0x02b56633, 0xa13e653e520042df), // rem x12, x10, x11
    (0x02b57633, 0x6d287dee89fce98f), // remu x12, x10, x11
    (0x00b5063b, 0xd9af309522a3fc20), // addw x12, x10, x11
    (0x40b5063b, 0x106f0acf89faf9e0), // subw x12, x10, x11
    (0x00b5163b, 0xe3b6fabb36c0cab8), // sllw x12, x10, x11
    (0x00b5563b, 0x53dedf4e33e56b6d), // srlw x12, x10, x11
    (0x40b5563b, 0xb9be3500dcc78685), // sraw x12, x10, x11
    (0x02b5063b, 0xacea2eb4ea0cebb8), // mulw x12, x10, x11
    (0x02b5463b, 0xfda4fcf4b3a2c7df), // divw x12, x10, x11
    (0x02b5563b, 0x7ed7f4a3dd0b3e5b), // divuw x12, x10, x11
    (0x02b5663b, 0xa8afc0e0d06e0d5f), // remw x12, x10, x11
    (0x02b5763b, 0x6d5e33eeca738c57), // remuw x12, x10, x11
    (0x00b50033, 0x07c45a51899b9c00), // add x0, x10, x11
    (0x0ff0000f, 0x07c45a51899b9c00), // fence
];
