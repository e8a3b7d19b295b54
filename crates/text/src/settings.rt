// The settings of a stream, as a line says them: STREAM ROLE CLASS RD DC RA DD.
ghost use Rattle.std.specs.Prelude.{◌≡◌, IsTrue};
ghost use Rattle.std.specs.Option.{SomeIff};
ghost use Rattle.text.specs.Settings.{settings_at};

use crate::words::Words;
use wire::ids::Stream;
use wire::settings::Settings;

impl<'a> Words<'a> {
    // The next seven words, as settings. All seven are read, also where one of them is no number.
    #[tactic(auto, using(crate::proofs::SettingsLaws::all_hold), unfolding(crate::specs::Settings::settings_at, crate::specs::Numbers::number_at))]
    pub fn settings(&mut self) -> Option<(Stream, Settings)>
        ensures value { let s = settings_at self.old.line self.old.at in SomeIff result (IsTrue s.ok) (s.stream, s.settings) }
        ensures moved { self.new ≡ record { line = self.old.line; at = (settings_at self.old.line self.old.at).next } }
    {
        let stream = self.number(u32::MAX);
        let role = self.number(u8::MAX);
        let class = self.number(u8::MAX);
        let rd = self.number(u16::MAX);
        let dc = self.number(u16::MAX);
        let ra = self.number(u16::MAX);
        let dd = self.number(u16::MAX);
        Some((
            Stream(stream?),
            Settings::of(role?, class?, rd?, dc?, ra?, dd?),
        ))
    }
}
