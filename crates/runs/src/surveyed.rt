// What a survey hands back: the head, and the answers of the three calls that read the sheet.
use refusal::refused::Refused;
use sheet::head::Head;

#[derive(Drop)]
pub struct Surveyed {
    pub head: Head,
    pub extend: Result<(), Refused>,
    pub quotient: Result<(), Refused>,
    pub public: Result<(), Refused>,
}
