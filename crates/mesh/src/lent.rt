// The mesh, as it is lent: x, y, depth and kind of each node, and three node numbers for each triangle.
#[derive(Clone, Copy)]
pub struct Mesh<'a> {
    pub x: &'a [i32],
    pub y: &'a [i32],
    pub tri: &'a [u16],
    pub h: &'a [f64],
    pub kind: &'a [u8],
}
