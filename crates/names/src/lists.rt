// The lists that the code keeps: the letters of the 83 names end to end, each name once; beside them their lengths; and the numbers of the 13 aliases'
// operators. Each stands in eights, numbers of eight bytes, the first byte lowest, in a match over their places. Of the first two matches the compiler makes
// tables in read-only memory, which hold the lists byte for byte, and of the third two constants; a list in quotes or brackets it would write into the
// function's own memory at each call (docs/DECISIONS.md 31). tools/packed-names prints the arms.
// They stay in matches: the library is to have their bytes once, in read-only memory, and of a list in another form the compiler does not make that.
// The contracts cite specs/Packed, whose lists are made from the readable one of specs/Names. Assumes nothing.
ghost use Rattle.std.specs.Prelude.{◌≡◌, ◌<◌, get_or};
ghost use Rattle.names.specs.Packed.{letters, lengths, aliased, eight_of, byte_of};

// The k-th eight of the letters.
#[tactic(auto, using(crate::proofs::Eights::past_end), unfolding(crate::specs::Packed::letters, crate::specs::Names::entries))]
fn eight_letters(k: usize) -> u64
    ensures { result ≡ eight_of letters k }
{
    match k {
        0 => 0x756f_6e69_7265_766f, // overinou
        1 => 0x726f_7870_6f74_6174, // tatopxor
        2 => 0x746c_756d_7375_6c70, // plusmult
        3 => 0x6572_6373_796c_7069, // iplyscre
        4 => 0x616c_7265_766f_6e65, // enoverla
        5 => 0x6c6e_656b_7261_6479, // ydarkenl
        6 => 0x6964_6e65_7468_6769, // ightendi
        7 => 0x6563_6e65_7265_6666, // fference
        8 => 0x6867_696c_6472_6168, // hardligh
        9 => 0x6769_6c74_666f_7374, // tsoftlig
        10 => 0x6472_6f6c_6f63_7468, // htcolord
        11 => 0x6f6c_6f63_6567_646f, // odgecolo
        12 => 0x656c_636e_7275_6272, // rburncle
        13 => 0x7473_6463_7273_7261, // arsrcdst
        14 => 0x6472_6576_6f74_7364, // dstoverd
        15 => 0x6f74_7364_6e69_7473, // stindsto
        16 => 0x6f74_6174_7364_7475, // utdstato
        17 => 0x7364_7375_6e69_6d70, // pminusds
        18 => 0x7273_7375_6e69_6d74, // tminussr
        19 => 0x6465_6469_7669_6463, // cdivided
        20 => 0x6564_6976_6964_7473, // stdivide
        21 => 0x6c75_646f_6d63_7273, // srcmodul
        22 => 0x646f_6d64_6461_7375, // usaddmod
        23 => 0x7462_7573_7375_6c75, // ulussubt
        24 => 0x6c63_7865_7463_6172, // ractexcl
        25 => 0x6e69_6c6e_6f69_7375, // usionlin
        26 => 0x6c6e_7275_6272_6165, // earburnl
        27 => 0x646f_6472_6165_6e69, // ineardod
        28 => 0x7261_656e_696c_6567, // gelinear
        29 => 0x7669_7674_6867_696c, // lightviv
        30 => 0x7074_6867_696c_6469, // idlightp
        31 => 0x6874_6867_696c_6e69, // inlighth
        32 => 0x6570_7869_6d64_7261, // ardmixpe
        33 => 0x6867_696c_706f_7467, // gtopligh
        34 => 0x7275_6274_666f_7374, // tsoftbur
        35 => 0x646f_6474_666f_736e, // nsoftdod
        36 => 0x6670_6d61_7473_6567, // gestampf
        37 => 0x6665_7265_7a65_6572, // reezeref
        38 => 0x6167_656e_7463_656c, // lectnega
        39 => 0x7072_6574_6e69_6574, // teinterp
        40 => 0x7461_6d65_7461_6c6f, // olatemat
        41 => 0x7363_6974_616d_6568, // hematics
        42 => 0x7369_6464_6e65_6c62, // blenddis
        43 => 0x736d_7265_766c_6f73, // solverms
        44 => 0x696e_656b_7261_6465, // edarkeni
        45 => 0x7974_6973_6e65_746e, // ntensity
        46 => 0x696e_6574_6867_696c, // lighteni
        47 => 0x7974_6973_6e65_746e, // ntensity
        48 => 0x7275_7461_7365_7568, // huesatur
        49 => 0x6e69_6d75_6c65_7461, // atelumin
        50 => 0x726f_6c6f_6365_7a69, // izecolor
        51 => 0x7279_706f_6365_7a69, // izecopyr
        52 => 0x7267_7970_6f63_6465, // edcopygr
        53 => 0x6279_706f_636e_6565, // eencopyb
        54 => 0x6179_706f_6365_756c, // luecopya
        55 => 0x7970_6f63_6168_706c, // lphacopy
        56 => 0x7970_6f63_6e61_7963, // cyancopy
        57 => 0x6361_746e_6567_616d, // magentac
        58 => 0x6f6c_6c65_7979_706f, // opyyello
        59 => 0x616c_6279_706f_6377, // wcopybla
        60 => 0x6567_6e61_6863_6b63, // ckchange
        61 => 0x706d_7562_6b73_616d, // maskbump
        62 => 0x7365_7268_7470_616d, // mapthres
        63 => 0x7073_6964_646c_6f68, // holddisp
        64 => 0x7473_6964_6563_616c, // lacedist
        65 => 0x6972_756c_6274_726f, // ortbluri
        66 => 0x7974_6973_6e65_746e, // ntensity
        67 => 0x6574_616c_7564_6f6d, // modulate
        68 => 0x7372_6576_6f63_7273, // srcovers
        69 => 0x6f63_7273_6e69_6372, // rcinsrco
        70 => 0x6f74_6163_7273_7475, // utsrcato
        71 => 0x7065_7279_706f_6370, // pcopyrep
        72 => 0x656e_6f6e_6563_616c, // lacenone
        73 => 0x7669_6473_756e_696d, // minusdiv
        74 => 0x6f79_706f_6365_6469, // idecopyo
        75 => 0x7661_7974_6963_6170, // pacityav
        76 => 0x6464_6165_6761_7265, // erageadd
        77 => 0x7463_6172_7462_7573, // subtract
        _ => 0,
    }
}

// The k-th eight of the lengths.
#[tactic(auto, using(crate::proofs::Eights::past_end), unfolding(crate::specs::Packed::lengths, crate::specs::Names::entries))]
fn eight_lengths(k: usize) -> u64
    ensures { result ≡ eight_of lengths k }
{
    match k {
        0 => 0x0608_0403_0403_0204, // 4, 2, 3, 4, 3, 4, 8, 6
        1 => 0x090a_0909_0a07_0607, // 7, 6, 7, 10, 9, 9, 10, 9
        2 => 0x0807_0605_0703_0305, // 5, 3, 3, 7, 5, 6, 7, 8
        3 => 0x0b0a_090f_0a09_0908, // 8, 9, 9, 10, 15, 9, 10, 11
        4 => 0x0509_080b_0708_0a0b, // 11, 10, 8, 7, 11, 8, 9, 5
        5 => 0x0408_050b_0b06_0706, // 6, 7, 6, 11, 11, 5, 8, 4
        6 => 0x0907_0808_0803_100f, // 15, 16, 3, 8, 8, 8, 7, 9
        7 => 0x070a_090a_0b08_0908, // 8, 9, 8, 11, 10, 9, 10, 7
        8 => 0x0507_0809_0407_0809, // 9, 8, 7, 4, 9, 8, 7, 5
        9 => 0x0b06_0504_0704_0706, // 6, 7, 4, 7, 4, 5, 6, 11
        10 => 0x0000_0000_0008_0307, // 7, 3, 8
        _ => 0,
    }
}

// The k-th eight of the aliases' numbers.
#[tactic(auto, using(crate::proofs::Eights::past_end), unfolding(crate::specs::Packed::aliased))]
fn eight_aliased(k: usize) -> u64
    ensures { result ≡ eight_of aliased k }
{
    match k {
        0 => 0x1712_1111_0302_0100, // 0, 1, 2, 3, 17, 17, 18, 23
        1 => 0x0000_001c_1b2d_3919, // 25, 57, 45, 27, 28
        _ => 0,
    }
}

// The i-th byte of an eight, from the lowest.
fn byte(w: u64, i: usize) -> u8
    requires { i < 8 }
    ensures { result ≡ byte_of w i }
{
    let shift = 8 * i;
    ((w >> shift) % 256) as u8
}

// The three lists are read alike, a line each: a trait over them would take more lines than it joined.

// The letter at a place of the list.
pub fn letter(at: usize) -> u8
    ensures { result ≡ get_or letters at 0 }
{
    byte(eight_letters(at / 8), at % 8)
}

// The length of the k-th name.
pub fn length_of(k: usize) -> usize
    ensures { result ≡ get_or lengths k 0 }
{
    usize::from(byte(eight_lengths(k / 8), k % 8))
}

// The number of the k-th alias's operator.
pub fn alias(k: usize) -> u64
    ensures { result ≡ get_or aliased k 0 }
{
    u64::from(byte(eight_aliased(k / 8), k % 8))
}
