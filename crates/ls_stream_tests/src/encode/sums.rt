//! The checksums of what CharLS writes for the pictures that the tests draw; made by `interop/sums`.
use crate::testing::Picture;

/// MAXVAL, T1, T2, T3 and RESET, or four zeros for the defaults; the length and the FNV-1a of the joined codestreams of
/// every kind of picture in every small size.
pub const SMALL: &[(u16, [u16; 4], u64, u64)] = &[
    (3, [2, 2, 2, 64], 951, 0xe5664b6725d5ad15),
    (3, [2, 2, 3, 3], 960, 0xa05a2a352a73fe3b),
    (3, [1, 2, 2, 255], 954, 0x1d397d77c71d3198),
    (3, [0, 0, 0, 0], 718, 0x039be2ddbd3258e6),
    (7, [4, 4, 4, 64], 1001, 0x2a810c6ef447918f),
    (7, [4, 4, 7, 3], 990, 0x492529ac2e17e5bc),
    (7, [1, 4, 4, 255], 993, 0x78357b74da56a3d5),
    (7, [0, 0, 0, 0], 752, 0xef99b38afb1bef38),
    (127, [64, 64, 64, 64], 1299, 0xc08fe41362d671db),
    (127, [64, 64, 127, 3], 1348, 0xe4132b933a9731fe),
    (127, [1, 64, 64, 255], 1349, 0xb2ae7654d87ebfac),
    (127, [0, 0, 0, 0], 1134, 0xffb85eede9025461),
    (255, [128, 128, 128, 64], 1382, 0x960ab65fda78b84a),
    (255, [128, 128, 255, 3], 1396, 0x9a8d7ec3f881d53f),
    (255, [1, 128, 128, 255], 1416, 0x589f4929060a457e),
    (255, [0, 0, 0, 0], 1081, 0x0a8f519820186581),
    (1023, [512, 512, 512, 64], 1614, 0xe44c48e1df89d821),
    (1023, [512, 512, 1023, 3], 1544, 0x2154dacd8ef53e4c),
    (1023, [1, 512, 512, 1023], 1542, 0x685761f2c9a4049c),
    (1023, [0, 0, 0, 0], 1300, 0xe8a3bca6288d2187),
    (4095, [2048, 2048, 2048, 64], 1722, 0x73654d0f8dcddf59),
    (4095, [2048, 2048, 4095, 3], 1655, 0x09102cf54f466cf5),
    (4095, [1, 2048, 2048, 4095], 1801, 0x9d356bf87e26de58),
    (4095, [0, 0, 0, 0], 1598, 0x1d756a36cba6fb22),
    (65535, [32768, 32768, 32768, 64], 2278, 0x16e878dfb2e972fd),
    (65535, [32768, 32768, 65535, 3], 2194, 0xbfcf7d24693acb6e),
    (65535, [1, 32768, 32768, 65535], 2302, 0x47027d15362c9a19),
    (65535, [0, 0, 0, 0], 1959, 0x730aa615d01aa1bb),
];

/// Components, width, height, MAXVAL and the kind of picture of larger frames with the default parameters; the length
/// and the FNV-1a of the codestream.
pub const LARGE: &[(u8, u16, u16, u16, Picture, u64, u64)] = &[
    (3, 61, 37, 3, Picture::Noise, 2162, 0xb8e4270883b03a58),
    (3, 61, 37, 3, Picture::Runs, 1118, 0x84d7b9eb622db676),
    (3, 61, 37, 3, Picture::Ramp, 2114, 0xf0f579abec858633),
    (3, 61, 37, 3, Picture::Extremes, 1633, 0x6473ed40ec93fb2d),
    (3, 61, 37, 255, Picture::Noise, 8123, 0xdf14e12492929cec),
    (3, 61, 37, 255, Picture::Runs, 5823, 0xd72e74199dd9a40a),
    (3, 61, 37, 255, Picture::Ramp, 2488, 0x9575dcddf3c03e82),
    (3, 61, 37, 255, Picture::Extremes, 1643, 0xdb2df18414c32f37),
    (3, 61, 37, 65535, Picture::Noise, 14343, 0x53ea3b72808b5bd9),
    (3, 61, 37, 65535, Picture::Runs, 12569, 0xfe6af6ba5b38c9a0),
    (3, 61, 37, 65535, Picture::Ramp, 2735, 0x42c25c4813e5ba7b),
    (
        3,
        61,
        37,
        65535,
        Picture::Extremes,
        3401,
        0x1e173eeb5beab471,
    ),
    (1, 1, 65535, 255, Picture::Ramp, 22885, 0x75c719318a977ffb),
    (
        1,
        1024,
        1025,
        255,
        Picture::Runs,
        644865,
        0xcb209d458d5aa69f,
    ),
];

/// The last sample of a line of 65,535 samples whose others are 0: with 0 the longest run, with 7 the longest that is
/// interrupted, so that RUNindex reaches its end; the length and the FNV-1a of the codestream.
pub const LONGEST_RUNS: &[(u16, u64, u64)] = &[
    (0, 32, 0x8c4407164e0de18a),
    (7, 34, 0x00a21c43d106f800),
];
