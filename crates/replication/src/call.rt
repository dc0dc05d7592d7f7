// A call on a cluster, as a caller asks for it. R is what a station reports.
#[derive(Clone, Copy)]
pub enum Call<R> {
    Report { station: usize, report: R },
    SendDelta { station: usize },
    SendFull { station: usize },
    Fetch { station: usize, message: usize },
    Discard { message: usize },
    Count,
    Fits { len: usize },
    Read { message: usize },
}
