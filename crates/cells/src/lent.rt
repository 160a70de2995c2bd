// The cells of work memory as they are lent: a slice of values, and one of labels. `specs/promises/Lent.antt` says what they hold, and that
// they are the slices that were lent. There is no invariant: each function answers for slices of any length. The marks stand beside them
// as a slice of their own: in a struct with this one inside, a proof would not know what a lent slice holds in the end.
#[derive(Drop)]
pub struct LentCells<'a> {
    pub values: &'a mut [i64],
    pub labels: &'a mut [u32],
}
