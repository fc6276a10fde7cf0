// The names of a program's 242 parameters.
#![tactic(auto)]

ghost use Rattle.text.specs.Text.{Puts};
ghost use Rattle.parameter_names.specs.ParameterNames.{parameter_name};

use text::Writer;
use words::put_word;

// The name of the parameter in byte n; of a byte past the last, the last parameter's.
pub fn put_parameter_name(out: &mut Writer, n: u8)
    ensures { Puts out.old (parameter_name n) out.new }
{
    put_word(
        out,
        b"LFO 1 Rate|LFO 1 Delay / Fade|LFO 1 Shape|LFO 1 Key Sync|LFO 1 Arp Sync|LFO 1 Mono Mode|\
          LFO 1 Slew Rate|LFO 2 Rate|LFO 2 Delay / Fade|LFO 2 Shape|LFO 2 Key Sync|LFO 2 Arp Sync|\
          LFO 2 Mono Mode|LFO 2 Slew Rate|\
          OSC 1 Range|OSC 2 Range|OSC 1 PWM Source|OSC 2 Tone Mod Source|OSC 1 Pulse Enable|OSC 1 Saw Enable|\
          OSC Sync Enable|OSC 1 Pitch Mod Depth|OSC 1 Pitch Mod Select|OSC 1 Aftertouch to Pitch Mod Depth|\
          OSC 1 Mod Wheel to Pitch Mod Depth|OSC 1 PWM Depth|OSC 2 Level|OSC 2 Pitch|OSC 2 Tone Mod Depth|\
          OSC 2 Pitch Mod Depth|OSC 2 Aftertouch to Pitch Mod Depth|OSC 2 Mod Wheel to Pitch Mod Depth|\
          OSC 2 Pitch Mod Select|Noise Level|Portamento time|Portamento mode|Pitch Bend Up Depth|\
          Pitch Bend Down Depth|OSC 1 Pitch Mod Mode|\
          VCF Frequency|VCF HighPass Frequency|VCF Resonance|VCF Envelope Depth|\
          VCF Envelope Velocity Sensitivity|VCF Pitch Bend to Freq Depth|VCF LFO Depth|VCF LFO Select|\
          VCF Aftertouch to LFO Depth|VCF Mod Wheel to LFO Depth|VCF Keyboard Tracking|VCF Envelope Polarity|\
          VCF 2 Pole Mode|VCF Bass Boost|\
          VCA Envelope Attack Time|VCA Envelope Decay Time|VCA Envelope Sustain Level|\
          VCA Envelope Release Time|VCA Envelope Trigger Mode|VCA Envelope Attack Curve|\
          VCA Envelope Decay Curve|VCA Envelope Sustain Curve|VCA Envelope Release Curve|\
          VCF Envelope Attack Time|VCF Envelope Decay Time|VCF Envelope Sustain Level|\
          VCF Envelope Release Time|VCF Envelope Trigger Mode|VCF Envelope Attack Curve|\
          VCF Envelope Decay Curve|VCF Envelope Sustain Curve|VCF Envelope Release Curve|\
          Mod Envelope Attack Time|Mod Envelope Decay Time|Mod Envelope Sustain Level|\
          Mod Envelope Release Time|Mod Envelope Trigger Mode|Mod Envelope Attack Curve|\
          Mod Envelope Decay Curve|Mod Envelope Sustain Curve|Mod Envelope Release Curve|\
          VCA Level|VCA Envelope Depth|VCA Envelope Velocity Sensitivity|VCA Pan Spread|Voice Priority Mode|\
          Polyphony Mode|Envelope Trigger Mode|Unison Detune|Voice Drift|Parameter Drift|Drift Rate|\
          OSC Portamento Balance|OSC Key Down Reset|\
          Mod 1 Source|Mod 1 Destination|Mod 1 Depth|Mod 2 Source|Mod 2 Destination|Mod 2 Depth|Mod 3 Source|\
          Mod 3 Destination|Mod 3 Depth|Mod 4 Source|Mod 4 Destination|Mod 4 Depth|Mod 5 Source|\
          Mod 5 Destination|Mod 5 Depth|Mod 6 Source|Mod 6 Destination|Mod 6 Depth|Mod 7 Source|\
          Mod 7 Destination|Mod 7 Depth|Mod 8 Source|Mod 8 Destination|Mod 8 Depth|\
          Ctrl Sequencer Enable|Ctrl Sequencer Clock Divider|Sequence Length|Sequencer Swing Timing|\
          Key Sync and Loop|Slew Rate|\
          Seq Step Value 1|Seq Step Value 2|Seq Step Value 3|Seq Step Value 4|Seq Step Value 5|\
          Seq Step Value 6|Seq Step Value 7|Seq Step Value 8|Seq Step Value 9|Seq Step Value 10|\
          Seq Step Value 11|Seq Step Value 12|Seq Step Value 13|Seq Step Value 14|Seq Step Value 15|\
          Seq Step Value 16|Seq Step Value 17|Seq Step Value 18|Seq Step Value 19|Seq Step Value 20|\
          Seq Step Value 21|Seq Step Value 22|Seq Step Value 23|Seq Step Value 24|Seq Step Value 25|\
          Seq Step Value 26|Seq Step Value 27|Seq Step Value 28|Seq Step Value 29|Seq Step Value 30|\
          Seq Step Value 31|Seq Step Value 32|\
          Arp On/Off|Arp Mode|Arp Rate (tempo)|Arp Clock|Arp Key Sync|Arp Gate Time|Arp Hold|Arp Pattern|\
          Arp Swing|Arp Octaves|FX Routing|\
          FX 1 Type|FX 1 Param 1|FX 1 Param 2|FX 1 Param 3|FX 1 Param 4|FX 1 Param 5|FX 1 Param 6|\
          FX 1 Param 7|FX 1 Param 8|FX 1 Param 9|FX 1 Param 10|FX 1 Param 11|FX 1 Param 12|\
          FX 2 Type|FX 2 Param 1|FX 2 Param 2|FX 2 Param 3|FX 2 Param 4|FX 2 Param 5|FX 2 Param 6|\
          FX 2 Param 7|FX 2 Param 8|FX 2 Param 9|FX 2 Param 10|FX 2 Param 11|FX 2 Param 12|\
          FX 3 Type|FX 3 Param 1|FX 3 Param 2|FX 3 Param 3|FX 3 Param 4|FX 3 Param 5|FX 3 Param 6|\
          FX 3 Param 7|FX 3 Param 8|FX 3 Param 9|FX 3 Param 10|FX 3 Param 11|FX 3 Param 12|\
          FX 4 Type|FX 4 Param 1|FX 4 Param 2|FX 4 Param 3|FX 4 Param 4|FX 4 Param 5|FX 4 Param 6|\
          FX 4 Param 7|FX 4 Param 8|FX 4 Param 9|FX 4 Param 10|FX 4 Param 11|FX 4 Param 12|\
          FX 1 Output Gain|FX 2 Output Gain|FX 3 Output Gain|FX 4 Output Gain|FX Mode|\
          Program Name Char 1|Program Name Char 2|Program Name Char 3|Program Name Char 4|Program Name Char 5|\
          Program Name Char 6|Program Name Char 7|Program Name Char 8|Program Name Char 9|\
          Program Name Char 10|Program Name Char 11|Program Name Char 12|Program Name Char 13|\
          Program Name Char 14|Program Name Char 15|Program Name Char 16|Program Name Char 17|\
          Program Category|Program Transpose",
        n as usize,
    );
}
