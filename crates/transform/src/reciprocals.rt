// Bytes out of premultiplied form: floor((510c + a) / 2a) without a division, by the reciprocal of a from a table.
//
// The quotient is that of 255c + floor(a / 2) by a. The product of that with 2^24 / a, rounded up, and shifted by 24 is the same: what the rounding
// adds does not reach the next whole number. At a = 0 the entry is 0, and so is the channel.
ghost use Rattle.std.specs.Prelude.{◌≡◌};
ghost use Rattle.transform.specs.Transforms.{unpremultiply};
ghost use Rattle.transform.specs.Reciprocals.{reciprocal_of, reciprocals};

// 2^24 / a for every alpha a, rounded up.
const RECIPROCALS: [u32; 256] = [
    0, 16777216, 8388608, 5592406, 4194304, 3355444, 2796203, 2396746, 2097152, 1864136, 1677722,
    1525202, 1398102, 1290556, 1198373, 1118482, 1048576, 986896, 932068, 883012, 838861, 798916,
    762601, 729445, 699051, 671089, 645278, 621379, 599187, 578525, 559241, 541201, 524288, 508401,
    493448, 479350, 466034, 453439, 441506, 430186, 419431, 409201, 399458, 390168, 381301, 372828,
    364723, 356963, 349526, 342393, 335545, 328966, 322639, 316552, 310690, 305041, 299594, 294338,
    289263, 284360, 279621, 275037, 270601, 266306, 262144, 258112, 254201, 250407, 246724, 243149,
    239675, 236299, 233017, 229825, 226720, 223697, 220753, 217886, 215093, 212370, 209716, 207127,
    204601, 202136, 199729, 197380, 195084, 192842, 190651, 188509, 186414, 184366, 182362, 180401,
    178482, 176603, 174763, 172961, 171197, 169467, 167773, 166112, 164483, 162886, 161320, 159784,
    158276, 156797, 155345, 153920, 152521, 151147, 149797, 148471, 147169, 145889, 144632, 143396,
    142180, 140986, 139811, 138655, 137519, 136401, 135301, 134218, 133153, 132105, 131072, 130056,
    129056, 128071, 127101, 126145, 125204, 124276, 123362, 122462, 121575, 120700, 119838, 118988,
    118150, 117324, 116509, 115705, 114913, 114131, 113360, 112599, 111849, 111108, 110377, 109656,
    108943, 108241, 107547, 106862, 106185, 105518, 104858, 104207, 103564, 102928, 102301, 101681,
    101068, 100463, 99865, 99274, 98690, 98113, 97542, 96979, 96421, 95870, 95326, 94787, 94255,
    93728, 93207, 92692, 92183, 91679, 91181, 90688, 90201, 89718, 89241, 88769, 88302, 87839,
    87382, 86929, 86481, 86038, 85599, 85164, 84734, 84308, 83887, 83469, 83056, 82647, 82242,
    81841, 81443, 81050, 80660, 80274, 79892, 79513, 79138, 78767, 78399, 78034, 77673, 77315,
    76960, 76609, 76261, 75916, 75574, 75235, 74899, 74566, 74236, 73909, 73585, 73263, 72945,
    72629, 72316, 72006, 71698, 71393, 71090, 70790, 70493, 70198, 69906, 69616, 69328, 69043,
    68760, 68479, 68201, 67924, 67651, 67379, 67109, 66842, 66577, 66314, 66053, 65794,
];

// The table, to be lent to whoever looks up more than one entry.
pub fn table() -> [u32; 256]
    ensures { result ≡ reciprocals }
{
    RECIPROCALS
}

// The table's entry for the alpha a.
pub fn reciprocal(table: &[u32], a: u8) -> u32
    requires { table.now ≡ reciprocals }
    ensures { result ≡ reciprocal_of a }
{
    let at = a as usize;
    table[at]
}

// The channel c under the alpha a, whose reciprocal is given; a channel above its alpha gives more than 255. An opaque pixel needs no product.
pub fn unpremultiply(c: u8, a: u8, reciprocal: u32) -> u16
    requires { reciprocal ≡ reciprocal_of a }
    ensures { result ≡ unpremultiply c a }
{
    if a == 255 {
        return c as u16;
    }
    let x = (c as u64) * 255 + ((a >> 1) as u64);
    (x * (reciprocal as u64) >> 24) as u16
}
