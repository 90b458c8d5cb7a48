// Adler-32 of a slice. With checksums a case's answer holds every byte of both buffers.

// Sums are taken modulo 65,521.
const MODULUS: u32 = 65521;

pub fn adler(s: &[u8]) -> u32 {
    let mut a: u32 = 1;
    let mut b: u32 = 0;
    for &byte in s {
        a = (a + u32::from(byte)) % MODULUS;
        b = (b + a) % MODULUS;
    }
    b * 65536 + a
}
