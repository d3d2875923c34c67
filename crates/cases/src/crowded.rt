// Messages that are all due in the first row, in one column less than there are messages: document 003's mix of periods, offset 0, deadline one cycle.
// A search without prices tries nearly every order of the columns before it says so.
use trial::show;
use trial::show::Wanted;

// Each size of the family: its title, its problem as text, and the plan that is wanted.
const SIZES: [(&[u8], &[u8], &[u8], &[u8], Wanted<&[u8]>); 4] = [
    // Nine messages, eight columns.
    (
        b"nine messages in eight columns",
        b"8 1278 78 240 32 8 9",
        b"78 150  228 150  378 150  528 150  678 150  828 150  978 150  1128 150",
        b"81 0 8 2  1278 0 1278
          82 0 8 2  1278 0 1278
          83 0 8 2  2556 0 1278
          84 0 8 2  2556 0 1278
          85 0 8 2  2556 0 1278
          86 0 8 2  5112 0 1278
          87 0 8 2  5112 0 1278
          88 0 8 2 10224 0 1278
          89 0 8 2 10224 0 1278",
        Err([14, 0, 0]),
    ),
    // Ten messages, nine columns.
    (
        b"ten messages in nine columns",
        b"8 1428 78 240 32 9 10",
        b"78 150  228 150  378 150  528 150  678 150  828 150  978 150  1128 150
          1278 150",
        b"81 0 8 2  1428 0 1428
          82 0 8 2  1428 0 1428
          83 0 8 2  2856 0 1428
          84 0 8 2  2856 0 1428
          85 0 8 2  2856 0 1428
          86 0 8 2  5712 0 1428
          87 0 8 2  5712 0 1428
          88 0 8 2  5712 0 1428
          89 0 8 2 11424 0 1428
          90 0 8 2 11424 0 1428",
        Err([14, 0, 0]),
    ),
    // Sixteen messages, fifteen columns.
    (
        b"sixteen messages in fifteen columns",
        b"8 2328 78 240 32 15 16",
        b"78 150  228 150  378 150  528 150  678 150  828 150  978 150  1128 150
          1278 150  1428 150  1578 150  1728 150  1878 150  2028 150  2178 150",
        b"81 0 8 2  2328 0 2328
          82 0 8 2  2328 0 2328
          83 0 8 2  2328 0 2328
          84 0 8 2  4656 0 2328
          85 0 8 2  4656 0 2328
          86 0 8 2  4656 0 2328
          87 0 8 2  4656 0 2328
          88 0 8 2  4656 0 2328
          89 0 8 2  9312 0 2328
          90 0 8 2  9312 0 2328
          91 0 8 2  9312 0 2328
          92 0 8 2  9312 0 2328
          93 0 8 2 18624 0 2328
          94 0 8 2 18624 0 2328
          95 0 8 2 18624 0 2328
          96 0 8 2 18624 0 2328",
        Err([14, 0, 0]),
    ),
    // With a column for each they all go into the first row.
    (
        b"sixteen messages in sixteen columns",
        b"8 2478 78 240 32 16 16",
        b"78 150  228 150  378 150  528 150  678 150  828 150  978 150  1128 150
          1278 150  1428 150  1578 150  1728 150  1878 150  2028 150  2178 150  2328 150",
        b"81 0 8 2  2478 0 2478
          82 0 8 2  2478 0 2478
          83 0 8 2  2478 0 2478
          84 0 8 2  4956 0 2478
          85 0 8 2  4956 0 2478
          86 0 8 2  4956 0 2478
          87 0 8 2  4956 0 2478
          88 0 8 2  4956 0 2478
          89 0 8 2  9912 0 2478
          90 0 8 2  9912 0 2478
          91 0 8 2  9912 0 2478
          92 0 8 2  9912 0 2478
          93 0 8 2 19824 0 2478
          94 0 8 2 19824 0 2478
          95 0 8 2 19824 0 2478
          96 0 8 2 19824 0 2478",
        Ok(b"0 0  1 0  2 0  3 0  4 0  5 0  6 0  7 0  8 0  9 0  10 0  11 0  12 0  13 0  14 0  15 0"),
    ),
];

// Every size.
pub fn run() {
    paper::text(b"All due in the first row\n");
    for (title, header, columns, messages, wanted) in SIZES {
        show::plan_text(title, header, columns, messages, wanted);
    }
}
